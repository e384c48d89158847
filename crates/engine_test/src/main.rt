// Runs calls through the engine and prints the records that they leave, with the exports of their stores.
// Each argument names a log, whose record is printed as it is after the last readable event; the first two are read step by step before
// that.
#![tactic(auto)]

mod steps;

use rules::battery::Record;
use std::io::Write;
use std::rt::{Env, Files};
use std::{env, io};
use testing::files;

// The record after the last readable event.
// Kept: beside block_test's send_singly, which the bytes bound: this one goes by what `readable` counts, which it tests.
fn after(events: &[u8], start: Record) -> Record {
    let mut r = start;
    let mut at = 0;
    for _ in 0..event_log::readable(events, events.len()).count {
        let Ok(Some((e, next))) = event_log::event_at(events, at) else {
            return r;
        };
        r = engine::apply(r, e).unwrap_or(r);
        at = next;
    }
    r
}

// Kept: beside the `run` of block_test, which has why.
fn run<W: Write>(out: &mut W, log: &[u8]) -> io::Result<()> {
    if let Some((battery, events)) = log.split_first() {
        let r = after(events, engine::fresh(*battery).start);
        record_text::print(out, r, engine::contactor(r))?;
    }
    Ok(())
}

// Prints the name of a log, and reads it.
fn open<'a, R: Env + Files, O: Write, E: Write>(
    rt: &R,
    out: &mut O,
    errors: &mut E,
    i: usize,
    buffer: &'a mut [u8],
) -> io::Result<&'a [u8]> {
    files::print_name(rt, out, i)?;
    writeln!(out)?;
    Ok(files::read(rt, errors, i, buffer))
}

fn main(rt: HostRuntime) -> io::Result<()> {
    let mut out = rt.stdout();
    let mut errors = rt.stderr();
    let count = env::args(&rt)?.len();
    let mut buffer = [0; 65_536];
    for i in 1..3 {
        let log = open(&rt, &mut out, &mut errors, i, &mut buffer)?;
        steps::run(&mut out, log)?;
    }
    for i in 1..count {
        let log = open(&rt, &mut out, &mut errors, i, &mut buffer)?;
        run(&mut out, log)?;
    }
    Ok(())
}
