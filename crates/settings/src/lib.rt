// What the calls that set one thing make of the live part of a record once accepted: power on and power loss, override, clear.
#![tactic(auto)]

ghost use Rattle.std.specs.Prelude.{◌≡◌};
ghost use Rattle.step.specs.Call.{border_live, set_live, override_control};

use rules::battery::{Control, Live};
use rules::states::State;
use rules::units::Milliseconds;

// A session begins in Dormant or ends in Unpowered.
pub fn begin(state: State, t: Milliseconds, l: Live) -> Live
    ensures { result ≡ border_live state t l }
{
    let control = fresh::control_in(state);
    let watch = fresh::no_watch();
    Live {
        last: t,
        control,
        watch,
        ..l
    }
}

pub fn set_override(t: Milliseconds, on: bool, l: Live) -> Live
    ensures { result ≡ set_live t (override_control on l.control) l.tally l }
{
    let control = Control {
        overriding: on,
        ..l.control
    };
    Live {
        last: t,
        control,
        ..l
    }
}

// A clear sets nothing but the time; the store that it empties stands elsewhere.
pub fn clear(t: Milliseconds, l: Live) -> Live
    ensures { result ≡ set_live t l.control l.tally l }
{
    Live { last: t, ..l }
}
