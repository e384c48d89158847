// Whether a measurement is within all limits, told by few tests.
#![tactic(auto)]

ghost use Rattle.std.specs.Prelude.{◌≡◌};
ghost use Rattle.calm.specs.Calm.{surely_permitted, is_calm};

use rules::sensors::Reading;
use rules::units::{DeciCelsius, Milliamperes};

// What is permitted at a temperature for every battery type, by what is permitted at each fifth degree: so L is looked up only in between. What
// is permitted at a temperature is permitted where it is warmer.
fn surely_permitted(coldest: DeciCelsius, i: Milliamperes) -> bool
    ensures { result ≡ surely_permitted coldest i }
{
    let most = match coldest.0 {
        250.. => 60_000,
        200.. => 41_666,
        150.. => 26_666,
        100.. => 15_000,
        50.. => 6_666,
        _ => 0,
    };
    i <= Milliamperes(most)
}

// Whether a measurement surely is within the limits of every protection: most are.
// Kept: battery type and reading are two parameters: one is of the record, the other of the event; so too in `protection` and `watch`.
#[tactic(auto, unfolding(crate::specs::Calm::is_calm))]
pub fn is_calm(battery: u8, r: Reading) -> bool
    ensures { result ≡ is_calm battery r }
{
    let e = extremes::extremes(r);
    e.highest <= within_limits::HIGH_CELL_CLEAR
        && within_limits::LOW_CELL_CLEAR <= e.lowest
        && e.hottest <= within_limits::HOT_CLEAR
        && within_limits::COLD_CLEAR <= e.coldest
        && surely_permitted(e.coldest, r.current)
        && within_limits::discharge_limit(battery) <= r.current
        && extremes::spread(e.highest, e.lowest) <= within_limits::SPREAD_CLEAR
}
