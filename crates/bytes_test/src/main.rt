// Runs the readers and writers of events and entries on a table of byte strings, and prints what each answers.
// A case on standard input is four bytes (which, position, room, length) and then `length` bytes: which is 0 for the event reader, 1 for
// the entry reader, each followed by a writer into a buffer of `room` bytes if something was found; 2 and 3 write a trip and a release
// whose protection number is the first of the bytes.
#![tactic(auto)]

mod values;

use rules::answers::ReadResult;
use rules::stores::Entry;
use rules::units::Milliseconds;
use std::io;
use std::io::Write;
use testing::print::Hex;
use testing::table::Cases;
use testing::{files, slice};
use values::Value;

// What a value's writer answers, and the buffer after it.
fn write_case<W: Write, V: Value>(out: &mut W, value: V, buffer: &mut [u8]) -> io::Result<()> {
    match value.write(buffer) {
        Ok(n) => write!(out, ", written {n}")?,
        Err(refusal) => write!(out, ", refused {}", u8::from(refusal))?,
    }
    write!(out, " {}", Hex(buffer))
}

// What a reader answers, and what it found written.
fn read_case<W: Write, V: Value>(
    out: &mut W,
    answer: ReadResult<V>,
    buffer: &mut [u8],
) -> io::Result<()> {
    match answer {
        Ok(Some((value, next))) => {
            value.print(out)?;
            write!(out, ", next {next}")?;
            write_case(out, value, buffer)
        }
        Ok(None) => write!(out, "end"),
        Err(why) => write!(out, "refused {} {}", u8::from(why.refusal), why.position),
    }
}

// An entry written that no reader gave.
fn entry_case<W: Write>(out: &mut W, entry: Entry, buffer: &mut [u8]) -> io::Result<()> {
    entry.print(out)?;
    write_case(out, entry, buffer)
}

// Kept: a byte for which of the four to run, matched here alone; an enum would need this match in a TryFrom and another at its use.
fn case<W: Write>(out: &mut W, head: &[u8], s: &[u8], buffer: &mut [u8]) -> io::Result<()> {
    let position = slice::byte(head, 1);
    let protection = word_reader::byte_at(s, 0);
    match slice::byte(head, 0) {
        0 => read_case(out, event_reader::read_event(s, position), buffer),
        1 => read_case(out, entry_reader::read_entry(s, position), buffer),
        2 => entry_case(out, Entry::Trip(Milliseconds(1), protection, -2), buffer),
        _ => entry_case(out, Entry::Release(Milliseconds(1), protection), buffer),
    }
}

fn main(rt: HostRuntime) -> io::Result<()> {
    let mut input = [0; 65_536];
    let mut out = rt.stdout();
    for (head, s) in Cases::of(files::read_full(&mut rt.stdin(), &mut input), 4) {
        // A buffer's bytes are hex ee before the write.
        let mut buffer = [0xee; 64];
        if let Some(room) = buffer.get_mut(..slice::byte(head, 2)) {
            case(&mut out, head, s, room)?;
        }
        writeln!(out)?;
    }
    Ok(())
}
