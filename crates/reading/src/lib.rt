// One measurement: which sensors failed, and whether it is plausible.
#![tactic(auto)]

ghost use Rattle.std.specs.Prelude.{◌≡◌};
ghost use Rattle.std.specs.Int.Count.{ones};
ghost use Rattle.rules.specs.Test.{cell_in_range, current_in_range, temperature_in_range, plausible, mask_of, failed_mask};
ghost use Rattle.reading.specs.Ranges.{extremes_in_range};

use rules::limits::{
    GREATEST_CELL, GREATEST_CURRENT, GREATEST_TEMPERATURE, LEAST_CELL, LEAST_CURRENT,
    LEAST_TEMPERATURE,
};
use rules::sensors::{Extremes, Reading};
use rules::units::{DeciCelsius, Milliamperes, Millivolts};

// ---- the built-in test

fn cell_in_range(v: Millivolts) -> bool
    ensures { result ≡ cell_in_range v }
{
    (LEAST_CELL..=GREATEST_CELL).contains(&v)
}

fn current_in_range(i: Milliamperes) -> bool
    ensures { result ≡ current_in_range i }
{
    (LEAST_CURRENT..=GREATEST_CURRENT).contains(&i)
}

fn temperature_in_range(t: DeciCelsius) -> bool
    ensures { result ≡ temperature_in_range t }
{
    (LEAST_TEMPERATURE..=GREATEST_TEMPERATURE).contains(&t)
}

// The mask of the sensors that are not each in its range.
fn mask(oks: [bool; 13]) -> u16
    ensures { result ≡ mask_of oks }
{
    let mut mask = 0;
    for (sensor, ok) in oks.iter().enumerate() {
        if !*ok {
            mask |= 1 << sensor;
        }
    }
    mask
}

pub fn failed_mask(r: Reading) -> u16
    ensures { result ≡ failed_mask r }
{
    mask([
        cell_in_range(r.cell0),
        cell_in_range(r.cell1),
        cell_in_range(r.cell2),
        cell_in_range(r.cell3),
        cell_in_range(r.cell4),
        cell_in_range(r.cell5),
        cell_in_range(r.cell6),
        cell_in_range(r.cell7),
        current_in_range(r.current),
        temperature_in_range(r.temperature0),
        temperature_in_range(r.temperature1),
        temperature_in_range(r.temperature2),
        temperature_in_range(r.temperature3),
    ])
}

pub fn failed_count(mask: u16) -> u32
    ensures { result ≡ ones mask }
{
    mask.count_ones()
}

// ---- plausible or not, by the extremes: the mask is wanted only where a sensor failed

fn in_range(e: Extremes, i: Milliamperes) -> bool
    ensures { result ≡ extremes_in_range e i }
{
    // Kept: `&`, since `&&` takes two instructions more on every measurement that is plausible (82 for 80, counted by valgrind).
    let cells = (LEAST_CELL <= e.lowest) & (e.highest <= GREATEST_CELL);
    let temperatures = (LEAST_TEMPERATURE <= e.coldest) & (e.hottest <= GREATEST_TEMPERATURE);
    cells & current_in_range(i) & temperatures
}

pub fn plausible(r: Reading) -> bool
    ensures { result ≡ plausible r }
{
    let e = extremes::extremes(r);
    in_range(e, r.current)
}
