// The time from one moment to another.
#![tactic(auto)]

ghost use Rattle.std.specs.Prelude.{◌≡◌};
ghost use Rattle.rules.specs.Quantities.{elapsed as elapsed_of};

use rules::units::Milliseconds;

// Zero where the start is later.
pub fn elapsed(start: Milliseconds, t: Milliseconds) -> Milliseconds
    ensures { result ≡ elapsed_of start t }
{
    Milliseconds(t.0.saturating_sub(start.0))
}
