// The reader that holds its log, at work on a log: ten reads in turn, and for each the answer, the reader's position afterwards and the
// length of the remainder. After "end" and after a refusal the reads go on, to the same answer. Each read makes a reader where the last one
// stood.
ghost use Rattle.std.specs.Prelude.{◌≡◌, drop, IfOk};
ghost use Rattle.rules.specs.Bytes.{next_position};

use rules::answers::ReadResult;
use rules::calls::Event;
use std::io;
use std::io::Write;

fn rest_at(log: &[u8], position: usize) -> &[u8]
    ensures { result.now ≡ drop position log.now }
{
    reader::rest(reader::starting_at(log, position))
}

fn print_answer<W: Write>(out: &mut W, a: ReadResult<Event>) -> io::Result<()> {
    match a {
        Ok(Some((_, next))) => write!(out, "found, next {next}"),
        Ok(None) => write!(out, "end"),
        Err(why) => write!(out, "refused {} at {}", u8::from(why.refusal), why.position),
    }
}

// A reader put where this one stands has a remainder of the same length.
fn print_read<'a, W: Write>(
    out: &mut W,
    log: &'a [u8],
    a: ReadResult<Event>,
    position: usize,
    rest: &'a [u8],
) -> io::Result<()> {
    print_answer(out, a)?;
    write!(out, ", position {position}, rest {}", rest.len())?;
    let other = rest_at(log, position);
    if other.len() != rest.len() {
        write!(out, ", but from there {}", other.len())?;
    }
    writeln!(out)
}

// One call gives the answer and the remainder, and moves the reader.
fn step<W: Write>(out: &mut W, log: &[u8], position: usize) -> io::Result<usize>
    ensures { IfOk result (λ next. next ≡ next_position log.now position) }
{
    let mut r = reader::starting_at(log, position);
    let n = reader::next(&mut r);
    print_read(out, log, n.answer, r.position, n.rest)?;
    Ok(r.position)
}

// The events stand after the type byte.
pub fn run<W: Write>(out: &mut W, log: &[u8]) -> io::Result<()> {
    let mut position = 1;
    for _ in 0..10 {
        position = step(out, log, position)?;
    }
    Ok(())
}
