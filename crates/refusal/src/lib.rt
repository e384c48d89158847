// The refusal of a call on a sound record: document 01's table, row by row.
#![tactic(auto)]

ghost use Rattle.std.specs.Prelude.{◌≡◌};
ghost use Rattle.rules.specs.Numbers.{number_of};
ghost use Rattle.rules.specs.Calls.{time_of};
ghost use Rattle.rules.specs.Refusals.{refusal as refusal_by_table};

use rules::battery::Live;
use rules::calls::Event;
use rules::limits::MISSION_TIME;
use rules::refusals::Refusal;
use rules::units::Milliseconds;

fn time_of(e: Event) -> Milliseconds
    ensures { result ≡ time_of e }
{
    match e {
        Event::Measurement(t, _)
        | Event::PowerOn(t)
        | Event::PowerLoss(t)
        | Event::ContactorCommand(t, _)
        | Event::StateRequest(t, _)
        | Event::BattleOverride(t, _)
        | Event::ClearLongTerm(t) => t,
    }
}

#[tactic(auto, unfolding(rules::specs::Refusals::refusal))]
pub fn refusal(l: Live, e: Event) -> Option<Refusal>
    ensures { number_of result ≡ refusal_by_table l.control.state l.last l.tally.commands e }
{
    let t = time_of(e);
    if t < l.last {
        return Some(Refusal::TimeBelowLast);
    }
    if MISSION_TIME < t {
        return Some(Refusal::TimeAboveMission);
    }
    state_refusal::by_state(l.control.state, l.tally.commands, e)
}
