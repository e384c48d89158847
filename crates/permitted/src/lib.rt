// The charge current that a battery permits at its coldest temperature, read from the printed rows of its charge rating, and what a current is
// held against as a charge.
#![tactic(auto)]

ghost use Rattle.std.specs.Prelude.{◌≡◌};
ghost use Rattle.rules.specs.Protections.{permitted};
ghost use Rattle.permitted.specs.Bound.{charge_bound};

use rules::units::{DeciCelsius, Milliamperes};

// Kept: the battery type is a number, since the clause answers for each.
pub fn permitted(battery: u8, coldest: DeciCelsius) -> Milliamperes
    ensures { result ≡ permitted battery coldest }
{
    match usize::try_from(coldest.0) {
        Err(_) => Milliamperes(0),
        Ok(tenths) if battery == 3 => rows_90::row(tenths),
        Ok(tenths) => rows_60::row(tenths),
    }
}

// L, and 0 for a current of at most 0: that is within every limit from 0 on and beyond none, so that L is not looked up for it.
pub fn charge_bound(battery: u8, coldest: DeciCelsius, i: Milliamperes) -> Milliamperes
    ensures { result ≡ charge_bound (permitted battery coldest) i }
{
    if i <= Milliamperes(0) {
        Milliamperes(0)
    } else {
        permitted(battery, coldest)
    }
}
