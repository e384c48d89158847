// The limits of document 01's table that a measurement is within, in the table's order. That of charge overcurrent is what is permitted; those of
// short circuit and discharge overcurrent are one, by battery type.
#![tactic(auto)]

ghost use Rattle.std.specs.Prelude.{◌≡◌};
ghost use Rattle.rules.specs.Quantities.{negated, discharge_rating};

use rules::units::{DeciCelsius, Milliamperes, Millivolts};

pub const HIGH_CELL_CLEAR: Millivolts = Millivolts(3500);

pub const LOW_CELL_CLEAR: Millivolts = Millivolts(2800);

pub const HOT_CLEAR: DeciCelsius = DeciCelsius(600);

pub const COLD_CLEAR: DeciCelsius = DeciCelsius(50);

// Kept: the battery type is a number, since the clause answers for each; document 01 has unsound records of any.
pub fn discharge_limit(battery: u8) -> Milliamperes
    ensures { result ≡ negated (discharge_rating battery) }
{
    if battery == 3 {
        Milliamperes(-180_000)
    } else {
        Milliamperes(-120_000)
    }
}

pub const SPREAD_CLEAR: Millivolts = Millivolts(300);
