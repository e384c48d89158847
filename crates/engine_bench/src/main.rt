// Times the engine: reads the log that its argument names and applies it again and again, each time from a fresh record. It prints how many
// events there are and how many calls are made, and for each of three repetitions the processor time in nanoseconds, in all and per call, and
// the refusals: of calls on events that were read before and of reading and calls, both with each store kept apart and written only where a
// call touches it; of calls that take a whole record, test all of its soundness and give a whole record back; and of blocks of 1,000 events.
// Where the entries that a repetition leaves don't add up to what those of the first did, that is said.
#![tactic(auto)]

use rules::battery::Record;
use rules::calls::Event;
use rules::limits::BLOCK_EVENTS;
use rules::stores::Stores;
use rules::units::Milliseconds;
use std::io::Write;
use std::rt::CpuClock;
use std::time::Duration;
use std::{env, io};
use testing::{files, slice};

// The first events of a log are kept, as many as there are slots.
const SLOTS: usize = 4096;

const CALLS: usize = 4_000_000;

// The log in blocks of at most 1,000 events, and how often it is sent for as many calls.
const BLOCKS: usize = 5;

const ROUNDS: usize = 977;

// Room for both exports of a record.
const LONG_EXPORT: usize = 640;

const EXPORTS: usize = 800;

// How many of a run's calls or blocks were refused, and the record whose entries are to be the same in each repetition. The two loops that keep
// the stores apart give the one after their last call: the compiler would leave out what writes a store that nothing reads.
#[derive(Clone, Copy)]
struct Ran {
    refused: usize,
    left: Record,
}

fn events(input: &[u8]) -> [Event; SLOTS] {
    let mut events = [Event::PowerOn(Milliseconds(0)); SLOTS];
    let mut at = 1;
    for event in &mut events {
        let Ok(Some((found, next))) = event_log::event_at(input, at) else {
            return events;
        };
        *event = found;
        at = next;
    }
    events
}

// After the last event the first one follows, on the first record.
// Kept: a loop in each of the four that are timed, with the turn written out. As a method of a struct that holds the live part and the stores it
// took 70 ns for 43 (tried).
fn call(events: &[Event], first: Record) -> Ran {
    let rest = judging::rest_sound(first.live, first.stores);
    let mut live = first.live;
    let mut short = first.stores.short;
    let mut long = first.stores.long;
    let mut refused: usize = 0;
    // Kept: an index, since `events.iter().cycle()` doesn't tell where it begins again, which is where the record does.
    let mut i = 0;
    for _ in 0..CALLS {
        if events.len() <= i {
            i = 0;
            live = first.live;
            short = first.stores.short;
            long = first.stores.long;
        }
        let Some(event) = events.get(i) else {
            break;
        };
        let e = *event;
        let judged = judging::judge_tested(rest, live, e);
        let after = judged.live;
        if judged.changed {
            short = writing::advance_short(live, after, short, e);
            if changes::changes_long(live, after, long.count, e) {
                long = writing::advance_long(live, after, long, e);
            }
        }
        live = after;
        refused = refused.wrapping_add(usize::from(judged.refusal.is_some()));
        i += 1;
    }
    Ran {
        refused,
        left: Record {
            live,
            stores: Stores { short, long },
        },
    }
}

// The same, on events as they are read. Bytes that can't be read end the log as its end does.
fn read_and_call(input: &[u8], first: Record) -> Ran {
    let rest = judging::rest_sound(first.live, first.stores);
    let mut live = first.live;
    let mut short = first.stores.short;
    let mut long = first.stores.long;
    let mut refused: usize = 0;
    let mut at = 1;
    for _ in 0..CALLS {
        let Ok(Some((e, next))) = event_log::event_at(input, at) else {
            at = 1;
            live = first.live;
            short = first.stores.short;
            long = first.stores.long;
            continue;
        };
        let judged = judging::judge_tested(rest, live, e);
        let after = judged.live;
        if judged.changed {
            short = writing::advance_short(live, after, short, e);
            if changes::changes_long(live, after, long.count, e) {
                long = writing::advance_long(live, after, long, e);
            }
        }
        live = after;
        refused = refused.wrapping_add(usize::from(judged.refusal.is_some()));
        at = next;
    }
    Ran {
        refused,
        left: Record {
            live,
            stores: Stores { short, long },
        },
    }
}

// The first of these two, by the engine's call on a whole record.
fn call_whole(events: &[Event], first: Record) -> usize {
    let mut held = first;
    let mut refused: usize = 0;
    // Kept: an index, as in `call`.
    let mut i = 0;
    for _ in 0..CALLS {
        if events.len() <= i {
            i = 0;
            held = first;
        }
        let Some(e) = events.get(i) else {
            return refused;
        };
        match engine::apply(held, *e) {
            Ok(after) => held = after,
            Err(_) => refused = refused.wrapping_add(1),
        }
        i += 1;
    }
    refused
}

// Where each block ends. The first one starts behind the type byte.
fn ends(input: &[u8]) -> [usize; BLOCKS] {
    let mut ends = [1; BLOCKS];
    let mut at: usize = 1;
    for end in &mut ends {
        let readable = event_log::readable(slice::part(input, at, input.len()), BLOCK_EVENTS);
        at = at.wrapping_add(readable.bytes);
        *end = at;
    }
    ends
}

// One round over the blocks.
fn send_all(input: &[u8], ends: &[usize], first: Record, answers: &mut [u8]) -> usize {
    let mut held = first;
    let mut refused: usize = 0;
    let mut start = 1;
    for end in ends {
        match block::apply_block(held, slice::part(input, start, *end), answers) {
            Ok(sent) => held = sent.after,
            Err(_) => refused = refused.wrapping_add(1),
        }
        start = *end;
    }
    refused
}

// How many blocks were refused; the log is sent again and again, as for reading and calls.
fn send(input: &[u8], first: Record) -> usize {
    let ends = ends(input);
    let mut answers = [0; BLOCK_EVENTS];
    let mut refused: usize = 0;
    for _ in 0..ROUNDS {
        refused = refused.wrapping_add(send_all(input, &ends, first, &mut answers));
    }
    refused
}

// The bytes of a record's two exports added up.
fn exported(r: Record) -> u64 {
    let mut bytes = [0; EXPORTS];
    let (long, short) = bytes.split_at_mut(LONG_EXPORT);
    let _ = export::export_long(r, long);
    let _ = export::export_short(r, short);
    bytes
        .iter()
        .fold(0, |sum: u64, byte| sum.wrapping_add(u64::from(*byte)))
}

// The processor time that the program has taken, 0 where the clock fails.
fn clock<R: CpuClock>(rt: &R) -> Duration {
    rt.process_cpu_time().unwrap_or(Duration::ZERO)
}

// Runs calls, prints how long they took, and answers what their record's exports add up to.
fn timed<R: CpuClock, W: Write, F: FnOnce() -> Ran>(
    rt: &R,
    out: &mut W,
    name: &str,
    run: F,
) -> io::Result<u64>
    requires { F.IsAlwaysCallable run }
{
    let start = clock(rt);
    let ran = run();
    let us = clock(rt).saturating_sub(start).as_micros();
    if us < 1_000_000_000_000 {
        let ns = us as u64 * 1000;
        let each = ns / CALLS as u64;
        let refused = ran.refused;
        writeln!(out, "{name} {ns} ns, per call {each}, refused {refused}")?;
    }
    Ok(exported(ran.left))
}

// Times each of the four once.
fn repeat<R: CpuClock, W: Write>(
    rt: &R,
    out: &mut W,
    input: &[u8],
    events: &[Event],
    first: Record,
) -> io::Result<[u64; 4]> {
    Ok([
        timed(rt, out, "calls", || call(events, first))?,
        timed(rt, out, "reading and calls", || read_and_call(input, first))?,
        timed(
            rt,
            out,
            "calls on a whole record",
            || Ran {
                refused: call_whole(events, first),
                left: first,
            },
        )?,
        timed(
            rt,
            out,
            "blocks of 1,000",
            || Ran {
                refused: send(input, first),
                left: first,
            },
        )?,
    ])
}

// Of a log without an event that can be read, a power on at 0 ms is called.
fn run<R: CpuClock, W: Write>(rt: &R, out: &mut W, input: &[u8]) -> io::Result<()> {
    if let Some((battery, log)) = input.split_first() {
        let first = engine::fresh(*battery).start;
        let slots = events(input);
        let count = event_log::readable(log, SLOTS).count;
        let events = &slots[..count.clamp(1, SLOTS)];
        writeln!(out, "events {count}")?;
        writeln!(out, "calls {CALLS}")?;
        let left = repeat(rt, out, input, events, first)?;
        for _ in 1..3 {
            if repeat(rt, out, input, events, first)? != left {
                writeln!(out, "other entries than before")?;
            }
        }
    }
    Ok(())
}

fn main(rt: HostRuntime) -> io::Result<()> {
    let mut out = rt.stdout();
    if env::args(&rt)?.len() < 2 {
        return writeln!(out, "usage: engine_bench LOG");
    }
    let mut buffer = [0; 147_456];
    run(
        &rt,
        &mut out,
        files::read(&rt, &mut rt.stderr(), 1, &mut buffer),
    )
}
