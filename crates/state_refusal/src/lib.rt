// The refusal of a call by the state and the command count: rows 8 to 10 of document 01's table.
#![tactic(auto)]

ghost use Rattle.std.specs.Prelude.{◌≡◌, not, cond, ltb};
ghost use Rattle.rules.specs.Numbers.{number_of};
ghost use Rattle.rules.specs.States.{is_powered, command_allowed, override_allowed, clear_allowed};
ghost use Rattle.rules.specs.Refusals.{first_of};
ghost use Rattle.state_refusal.specs.Rows.{state_checks};

use rules::calls::{Command, Event};
use rules::limits::COMMAND_CEILING;
use rules::refusals::Refusal;
use rules::states::State;

fn at_power_on(s: State) -> Option<Refusal>
    ensures { number_of result ≡ cond (is_powered s) 8 0 }
{
    match s {
        State::Unpowered => None,
        _ => Some(Refusal::WrongPower),
    }
}

// A measurement or a power loss.
fn while_powered(s: State) -> Option<Refusal>
    ensures { number_of result ≡ cond (not (is_powered s)) 8 0 }
{
    match s {
        State::Unpowered => Some(Refusal::WrongPower),
        _ => None,
    }
}

fn at_command(c: Command, s: State, commands: u32) -> Option<Refusal>
    ensures { number_of result ≡ cond (not (is_powered s)) 8 (cond (not (command_allowed s commands c)) 10 0) }
{
    match (c, s) {
        (_, State::Unpowered) => Some(Refusal::WrongPower),
        (_, State::Dormant) => Some(Refusal::OtherNotAllowed),
        (Command::ForceClosed, State::Operational) => Some(Refusal::OtherNotAllowed), // in Maintenance only
        _ if commands < COMMAND_CEILING => None,
        _ => Some(Refusal::OtherNotAllowed),
    }
}

fn at_override(s: State) -> Option<Refusal>
    ensures { number_of result ≡ cond (not (is_powered s)) 8 (cond (not (override_allowed s)) 10 0) }
{
    match s {
        State::Unpowered => Some(Refusal::WrongPower),
        State::Dormant => Some(Refusal::OtherNotAllowed),
        State::Operational | State::Maintenance => None,
    }
}

fn at_clear(s: State) -> Option<Refusal>
    ensures { number_of result ≡ cond (not (is_powered s)) 8 (cond (not (clear_allowed s)) 10 0) }
{
    match s {
        State::Unpowered => Some(Refusal::WrongPower),
        State::Dormant | State::Operational => Some(Refusal::OtherNotAllowed),
        State::Maintenance => None,
    }
}

// The time of a measurement has a name so that the compiler doesn't take the event apart and put it together again.
pub fn by_state(s: State, commands: u32, e: Event) -> Option<Refusal>
    ensures { number_of result ≡ first_of (state_checks s commands e) }
{
    match e {
        Event::Measurement(_t, _) | Event::PowerLoss(_t) => while_powered(s),
        Event::PowerOn(_) => at_power_on(s),
        Event::ContactorCommand(_, c) => at_command(c, s, commands),
        Event::StateRequest(_, q) => request_refusal::at_request(q, s),
        Event::BattleOverride(_, _) => at_override(s),
        Event::ClearLongTerm(_) => at_clear(s),
    }
}
