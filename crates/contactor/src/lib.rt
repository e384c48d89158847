// The contactor of a record, worked out when asked.
#![tactic(auto)]

ghost use Rattle.std.specs.Prelude.{◌≡◌, not, ◌&&◌};
ghost use Rattle.rules.specs.Contactor.{state_and_command};
ghost use Rattle.rules.specs.Protections.{row_of, mask_below};
ghost use Rattle.step.specs.Close.{lifted as lifted_of, closes as closes_of, contactor_of};

use rules::battery::{Live, Record};
use rules::calls::Command;
use rules::states::{Contactor, State, TestResult};

// State and command ask for power.
fn ready(s: State, c: Command) -> bool
    ensures { result ≡ state_and_command s c }
{
    matches!(
        (s, c),
        (State::Operational, Command::Automated) | (State::Maintenance, Command::ForceClosed)
    )
}

// The protections that hold the contactor open where they are tripped: all, or with override on all but 1, 3, 6 and 7; of any type.
fn fixed(battery: u8, on: bool) -> u8
    ensures { result ≡ mask_below (λ protection. not (on && (row_of battery protection).liftable)) 8 }
{
    if on { 0b0011_0101 } else { 0b1111_1111 }
}

// No tripped protection holds the contactor open.
fn lifted(battery: u8, on: bool, tripped: u8) -> bool
    ensures { result ≡ lifted_of battery on tripped }
{
    tripped & fixed(battery, on) == 0
}

// Whether the contactor is closed, for a caller that keeps the stores elsewhere.
#[tactic(auto, unfolding(step::specs::Close::closes))]
pub fn closes(l: Live) -> bool
    ensures { result ≡ closes_of l }
{
    l.watch.test == TestResult::Passed
        && ready(l.control.state, l.control.command)
        && lifted(l.battery, l.control.overriding, l.watch.tripped)
}

pub fn contactor(r: Record) -> Contactor
    ensures { result ≡ contactor_of r.live }
{
    if closes(r.live) {
        Contactor::Closed
    } else {
        Contactor::Open
    }
}
