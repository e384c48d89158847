// A record and its exports as text: a line each, of a name and a value.
#![tactic(auto)]

ghost use Rattle.std.specs.Prelude.{◌≡◌};
ghost use Rattle.rules.specs.Numbers.{contactor_number};

use rules::battery::{Live, Record};
use rules::refusals::Refusal;
use rules::states::Contactor;
use std::io;
use std::io::Write;
use testing::print::Hex;
use testing::slice;

fn control<W: Write>(out: &mut W, l: Live) -> io::Result<()> {
    writeln!(out, "state {}", views::state(l))?;
    writeln!(out, "command {}", views::command(l))?;
    writeln!(out, "override {}", views::overriding(l))?;
    writeln!(out, "last {}", l.last.0)?;
    writeln!(out, "commands {}", l.tally.commands)
}

fn watch<W: Write>(out: &mut W, l: Live) -> io::Result<()> {
    writeln!(out, "test {}", views::test(l))?;
    writeln!(out, "failed {:04x}", l.watch.mask)?;
    writeln!(out, "failed_count {}", l.watch.failed)?;
    writeln!(out, "tripped {:02x}", tripped::mask(l))
}

fn closed(c: Contactor) -> u8
    ensures { result ≡ contactor_number c }
{
    c as u8
}

fn accounts<W: Write>(out: &mut W, l: Live) -> io::Result<()> {
    writeln!(out, "charged {}", l.tally.charged.0)?;
    writeln!(out, "discharged {}", l.tally.discharged.0)
}

// What an export answered, and the buffer that it was given. A dash stands for no bytes.
fn export<W: Write>(
    out: &mut W,
    name: &str,
    written: Result<usize, Refusal>,
    buffer: &[u8],
) -> io::Result<()> {
    match written {
        Ok(0) => writeln!(out, "{name} -"),
        Ok(n) => writeln!(out, "{name} {}", Hex(slice::part(buffer, 0, n))),
        Err(refusal) => writeln!(out, "{name} refused {}", u8::from(refusal)),
    }
}

fn exports<W: Write>(out: &mut W, r: Record) -> io::Result<()> {
    let mut long = [0; 640];
    let mut short = [0; 160];
    export(out, "long", export::export_long(r, &mut long), &long)?;
    export(out, "short", export::export_short(r, &mut short), &short)
}

// With the contactor that goes with it.
pub fn print<W: Write>(out: &mut W, r: Record, contactor: Contactor) -> io::Result<()> {
    writeln!(out, "type {}", r.live.battery)?;
    control(out, r.live)?;
    watch(out, r.live)?;
    writeln!(out, "contactor {}", closed(contactor))?;
    accounts(out, r.live)?;
    exports(out, r)?;
    writeln!(out, "long_count {}", views::long_count(r.stores))?;
    writeln!(out, "short_count {}", views::short_count(r.stores))
}
