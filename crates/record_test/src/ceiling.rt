// The command count at its ceiling: one more contactor command is accepted and then none, in either state that allows them; all else
// goes on.
use crate::{edit, limits};
use rules::calls::{Command, Event, Request};
use rules::limits::COMMAND_CEILING;
use rules::units::Milliseconds;
use std::io;
use std::io::Write;

// Kept: calls one by one, since which record each takes, of those that others left, is the test.
pub fn run<W: Write>(out: &mut W) -> io::Result<()> {
    let t = Milliseconds(1_000);
    let r = edit::commands(COMMAND_CEILING - 1);
    writeln!(out, "ceiling")?;
    let a = limits::call(out, "open ", r, Event::ContactorCommand(t, Command::Open))?;
    writeln!(out)?;
    record_text::print(out, a, engine::contactor(a))?;
    limits::call(
        out,
        "automated ",
        a,
        Event::ContactorCommand(t, Command::Automated),
    )?;
    limits::call(out, ", override ", a, Event::BattleOverride(t, true))?;
    let b = limits::call(
        out,
        ", maintenance ",
        a,
        Event::StateRequest(t, Request::Maintenance),
    )?;
    limits::call(
        out,
        ", force closed ",
        b,
        Event::ContactorCommand(t, Command::ForceClosed),
    )?;
    let c = limits::call(out, ", power loss ", b, Event::PowerLoss(t))?;
    writeln!(out)?;
    record_text::print(out, c, engine::contactor(c))
}
