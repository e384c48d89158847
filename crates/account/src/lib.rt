// What two neighbouring currents, a time apart, add to either account: the charge of their mean.
#![tactic(auto)]

ghost use Rattle.std.specs.Prelude.{◌≡◌, ◌≤◌, ◌*◌, ◌/◌, nat_abs};
ghost use Rattle.rules.specs.Quantities.{ma_ms, sum as sum_of};
ghost use Rattle.rules.specs.Accounts.{flow, halved, positive_part, negative_part};

use rules::units::{Charge, Milliamperes, Milliseconds};

fn sum(earlier: Milliamperes, later: Milliamperes) -> i64
    ensures is { result ≡ (sum_of earlier later).0 }
    ensures small { nat_abs result ≤ 4_294_967_296 }
{
    i64::from(earlier.0) + i64::from(later.0)
}

fn half(magnitude: u64, elapsed: Milliseconds) -> Charge
    requires { magnitude ≤ 4_294_967_296 }
    ensures is { result ≡ ma_ms (magnitude * elapsed.0 / 2) }
    ensures small { result.0 ≤ 9_223_372_036_854_775_808 }
{
    Charge(magnitude * u64::from(elapsed.0) / 2)
}

// What of a sum has its sign: none of one below 0.
fn positive(sum: i64) -> u64
    requires { nat_abs sum ≤ 4_294_967_296 }
    ensures is { result ≡ positive_part sum }
    ensures small { result ≤ 4_294_967_296 }
{
    sum.max(0) as u64
}

// Of currents that charge on the whole. The bound is for the account that it joins.
// Kept: the bound stands in both clauses: it is for the sum that the account makes of it, and any account is a `Charge`.
// Kept: two currents and a time, not a struct: the sum takes two of the three.
pub fn inflow(earlier: Milliamperes, later: Milliamperes, elapsed: Milliseconds) -> Charge
    ensures is { result ≡ ma_ms (positive_part (halved (flow earlier later elapsed))) }
    ensures small { result.0 ≤ 9_223_372_036_854_775_808 }
{
    half(positive(sum(earlier, later)), elapsed)
}

// Of currents that discharge on the whole: the magnitude is halved, so that it is rounded towards zero too.
pub fn outflow(earlier: Milliamperes, later: Milliamperes, elapsed: Milliseconds) -> Charge
    ensures is { result ≡ ma_ms (negative_part (halved (flow earlier later elapsed))) }
    ensures small { result.0 ≤ 9_223_372_036_854_775_808 }
{
    half(positive(-sum(earlier, later)), elapsed)
}
