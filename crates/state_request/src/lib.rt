// What an accepted state request makes of the live part of a record.
#![tactic(auto)]

ghost use Rattle.std.specs.Prelude.{◌≡◌};
ghost use Rattle.rules.specs.States.{requested, is_change, enters_dormant};
ghost use Rattle.step.specs.Call.{set_live, request_control};

use rules::battery::{Control, Live};
use rules::calls::{Command, Request};
use rules::states::State;
use rules::units::Milliseconds;

// Kept: no `From<Request> for State`, which could stand only in rules, beside the two types; for its one caller it is no plainer.
fn state_named(q: Request) -> State
    ensures { result ≡ requested q }
{
    match q {
        Request::Dormant => State::Dormant,
        Request::Operational => State::Operational,
        Request::Maintenance => State::Maintenance,
    }
}

fn is_change(s: State, q: Request) -> bool
    ensures { result ≡ is_change s q }
{
    s != state_named(q)
}

fn enters_dormant(s: State, q: Request) -> bool
    ensures { result ≡ enters_dormant s q }
{
    q == Request::Dormant && s != State::Dormant
}

// Kept: a time and a live part, no struct of both: it would be taken apart at once; so too in `settings` and `advance`.
pub fn request(t: Milliseconds, q: Request, l: Live) -> Live
    ensures { result ≡ set_live t (request_control q l.control) l.tally l }
{
    let c = l.control;
    let control = Control {
        state: state_named(q),
        command: if is_change(c.state, q) {
            Command::Automated
        } else {
            c.command
        },
        overriding: !enters_dormant(c.state, q) && c.overriding,
    };
    Live {
        last: t,
        control,
        ..l
    }
}
