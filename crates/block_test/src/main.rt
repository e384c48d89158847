// Sends blocks of events to the engine, and prints what each of them answers and the record that a case leaves.
// Each argument names a case: a battery type, then steps. A step is a byte that says what it is, the length of its bytes and of the answer
// buffer (4 bytes each, little-endian), and its bytes: 0 events sent singly, 1 a block, 2 a change that makes the record unsound.
#![tactic(auto)]

use rules::battery::{Live, Record};
use rules::refusals::number_of;
use std::io::Write;
use std::{env, io};
use testing::print::Hex;
use testing::{files, slice};

// The bytes before those of a step.
const HEAD: usize = 9;

// The longest answer buffer, and what stands in each byte of it before a block is sent.
const ANSWERS: usize = 1_100;

const MARK: u8 = 0xEE;

// What a block answered, of one that was refused three zeros but for the refusal.
fn print_sent<W: Write>(out: &mut W, refusal: u8, count: usize, number: u8) -> io::Result<()> {
    writeln!(out, "refusal {refusal}")?;
    writeln!(out, "count {count}")?;
    writeln!(out, "number {number}")
}

fn print_answers<W: Write>(out: &mut W, answers: &[u8]) -> io::Result<()> {
    if answers.is_empty() {
        writeln!(out, "answers -")
    } else {
        writeln!(out, "answers {}", Hex(answers))
    }
}

fn send<W: Write>(out: &mut W, r: Record, events: &[u8], room: usize) -> io::Result<Record> {
    let mut buffer = [MARK; ANSWERS];
    let Some(answers) = buffer.get_mut(..room) else {
        writeln!(out, "the answer buffer is too long")?;
        return Ok(r);
    };
    let sent = block::apply_block(r, events, answers);
    match sent {
        Ok(sent) => print_sent(out, 0, sent.count, number_of(sent.reader))?,
        Err(refusal) => print_sent(out, u8::from(refusal), 0, 0)?,
    }
    print_answers(out, answers)?;
    Ok(sent.map_or(r, |sent| sent.after))
}

fn send_singly(start: Record, events: &[u8]) -> Record {
    let mut r = start;
    let mut at = 0;
    while let Ok(Some((e, next))) = event_log::event_at(events, at) {
        r = engine::apply(r, e).unwrap_or(r);
        at = next;
    }
    r
}

// No battery has type 0.
fn spoil(r: Record) -> Record {
    Record {
        live: Live {
            battery: 0,
            ..r.live
        },
        ..r
    }
}

// Kept: bytes for the three steps, matched here alone; an enum would need this match in a TryFrom and another at its use.
fn take_step<W: Write>(
    out: &mut W,
    r: Record,
    kind: u8,
    bytes: &[u8],
    room: usize,
) -> io::Result<Record> {
    match kind {
        1 => send(out, r, bytes, room),
        2 => Ok(spoil(r)),
        _ => Ok(send_singly(r, bytes)),
    }
}

fn take_steps<W: Write>(out: &mut W, steps: &[u8], start: Record) -> io::Result<Record> {
    let mut r = start;
    let mut rest = steps;
    while let Some(kind) = rest.first() {
        let size = word_reader::u32_at(rest, 1) as usize;
        let room = word_reader::u32_at(rest, 5) as usize;
        let end = HEAD + size;
        r = take_step(out, r, *kind, slice::part(rest, HEAD, end), room)?;
        rest = slice::part(rest, end, rest.len());
    }
    Ok(r)
}

// Kept: beside the `run` of engine_test, which makes its record otherwise: one for both would take that as a closure, and bring the engine
// into `testing`.
fn run<W: Write>(out: &mut W, input: &[u8]) -> io::Result<()> {
    if let Some((battery, steps)) = input.split_first() {
        let r = take_steps(out, steps, engine::fresh(*battery).start)?;
        record_text::print(out, r, engine::contactor(r))?;
    }
    Ok(())
}

fn main(rt: HostRuntime) -> io::Result<()> {
    let mut out = rt.stdout();
    let mut errors = rt.stderr();
    let mut buffer = [0; 65_536];
    for i in 1..env::args(&rt)?.len() {
        files::print_name(&rt, &mut out, i)?;
        writeln!(out)?;
        run(&mut out, files::read(&rt, &mut errors, i, &mut buffer))?;
    }
    Ok(())
}
