// A row of the permitted charge current's page, for any charge rating and any table; proofs/ has what its rows are held to.
#![tactic(auto)]

ghost use Rattle.std.specs.Prelude.{◌≡◌, slice_index_or};
ghost use Rattle.rules.specs.Quantities.{ma};

use rules::units::Milliamperes;

// The row at a tenth of a degree, or the rating past the last one.
pub fn row(rows: &[i32], rating: i32, tenths: usize) -> Milliamperes
    ensures { result ≡ ma (slice_index_or rows.now tenths rating) }
{
    Milliamperes(*rows.get(tenths).unwrap_or(&rating))
}
