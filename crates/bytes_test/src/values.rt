// Events and entries as text, and how each is written.
use rules::calls::{Command, Event, Request};
use rules::refusals::Refusal;
use rules::sensors::Reading;
use rules::stores::Entry;
use std::io;
use std::io::Write;

// Kept: a trait of its own that prints, since Display on the types of `rules` would be there for the words of this test alone.
pub trait Value: Copy {
    fn print<W: Write>(self, out: &mut W) -> io::Result<()>;

    fn write(self, buffer: &mut [u8]) -> Result<usize, Refusal>;
}

fn print_reading<W: Write>(out: &mut W, r: Reading) -> io::Result<()> {
    let cells = [
        r.cell0, r.cell1, r.cell2, r.cell3, r.cell4, r.cell5, r.cell6, r.cell7,
    ];
    for cell in cells {
        write!(out, " {}", cell.0)?;
    }
    write!(out, " {}", r.current.0)?;
    let temperatures = [
        r.temperature0,
        r.temperature1,
        r.temperature2,
        r.temperature3,
    ];
    for temperature in temperatures {
        write!(out, " {}", temperature.0)?;
    }
    Ok(())
}

fn command_name(c: Command) -> &'static str {
    match c {
        Command::Automated => "automated",
        Command::Open => "open",
        Command::ForceClosed => "force-closed",
    }
}

fn request_name(q: Request) -> &'static str {
    match q {
        Request::Dormant => "dormant",
        Request::Operational => "operational",
        Request::Maintenance => "maintenance",
    }
}

impl Value for Event {
    fn print<W: Write>(self, out: &mut W) -> io::Result<()> {
        match self {
            Event::Measurement(t, reading) => {
                write!(out, "measurement {}", t.0)?;
                print_reading(out, reading)
            }
            Event::PowerOn(t) => write!(out, "power-on {}", t.0),
            Event::PowerLoss(t) => write!(out, "power-loss {}", t.0),
            Event::ContactorCommand(t, c) => write!(out, "command {} {}", t.0, command_name(c)),
            Event::StateRequest(t, q) => write!(out, "request {} {}", t.0, request_name(q)),
            Event::BattleOverride(t, true) => write!(out, "override {} on", t.0),
            Event::BattleOverride(t, false) => write!(out, "override {} off", t.0),
            Event::ClearLongTerm(t) => write!(out, "clear {}", t.0),
        }
    }

    fn write(self, buffer: &mut [u8]) -> Result<usize, Refusal> {
        event_writer::write_event(self, buffer)
    }
}

impl Value for Entry {
    fn print<W: Write>(self, out: &mut W) -> io::Result<()> {
        match self {
            Entry::Trip(t, p, v) => write!(out, "trip {} {p} {v}", t.0),
            Entry::Release(t, p) => write!(out, "release {} {p}", t.0),
        }
    }

    fn write(self, buffer: &mut [u8]) -> Result<usize, Refusal> {
        entry_writer::write_entry(self, buffer)
    }
}
