// The highest and lowest cell of a measurement, its hottest and coldest temperature; how far two cells are apart.
#![tactic(auto)]

ghost use Rattle.std.specs.Prelude.{◌≡◌, ◌-◌};
ghost use Rattle.rules.specs.Quantities.{mv};
ghost use Rattle.rules.specs.Protections.{extremes};

use rules::sensors::{Extremes, Reading};
use rules::units::Millivolts;

pub fn extremes(r: Reading) -> Extremes
    ensures { result ≡ extremes r }
{
    Extremes {
        highest: r
            .cell0
            .max(r.cell1)
            .max(r.cell2)
            .max(r.cell3)
            .max(r.cell4)
            .max(r.cell5)
            .max(r.cell6)
            .max(r.cell7),
        lowest: r
            .cell0
            .min(r.cell1)
            .min(r.cell2)
            .min(r.cell3)
            .min(r.cell4)
            .min(r.cell5)
            .min(r.cell6)
            .min(r.cell7),
        hottest: r
            .temperature0
            .max(r.temperature1)
            .max(r.temperature2)
            .max(r.temperature3),
        coldest: r
            .temperature0
            .min(r.temperature1)
            .min(r.temperature2)
            .min(r.temperature3),
    }
}

pub fn spread(highest: Millivolts, lowest: Millivolts) -> Millivolts
    ensures { result ≡ mv (highest.0 - lowest.0) }
{
    Millivolts(highest.0.saturating_sub(lowest.0))
}
