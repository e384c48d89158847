// The tripped protections of a record as a mask. It reads the live part alone.
#![tactic(auto)]

ghost use Rattle.std.specs.Prelude.{◌≡◌};
ghost use Rattle.step.specs.Print.{tripped_of};

use rules::battery::Live;

pub fn mask(l: Live) -> u8
    ensures { result ≡ tripped_of l }
{
    l.watch.tripped
}
