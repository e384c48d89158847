// The permitted charge current for a charge rating of 60,000 mA, from 0 °C on, read from printed rows.
#![tactic(auto)]

ghost use Rattle.std.specs.Prelude.{◌≡◌, pos};
ghost use Rattle.rules.specs.Quantities.{ma};
ghost use Rattle.rules.specs.Protections.{permitted_at};

use crate::rows::ROWS;
use rules::units::Milliamperes;

mod rows;

// The row, or the rating past the last one.
// Kept: a function for each page: docs/TRACE.md names both beside their pages and edits; what they do is curve::row.
pub fn row(tenths: usize) -> Milliamperes
    ensures { result ≡ ma (pos (permitted_at 60_000 (pos tenths))) }
{
    curve::row(&ROWS, 60_000, tenths)
}
