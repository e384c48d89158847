// Document 01, "Unsound": a record for each condition of the list, and one just inside each limit, by the table on standard input. A line
// says whether the record is sound, what two calls answer (a power loss, which a sound record accepts, and a power on at 0 ms, which is
// early), whether a refused call leaves the record as it was, and what both exports answer, with whether the buffer holds what it held
// after the bytes written. A refusal comes without a record: the same event goes as a block of one, which gives the record after it.
ghost use Rattle.std.specs.Prelude.{◌≡◌, ◌<◌, ◌^◌, eqb};
ghost use Rattle.std.specs.List.{list_all};

use crate::{compare, edit};
use rules::battery::Record;
use rules::calls::Event;
use rules::limits::{LONG_TERM_ENTRIES, SHORT_TERM_ENTRIES};
use rules::refusals::Refusal;
use rules::units::Milliseconds;
use std::io;
use std::io::Write;
use testing::slice;
use testing::table::Cases;

// Of the byte that every buffer is filled with.
// Kept: a loop over all of them and no `all`, which stops at the first other byte, so that it takes them one by one (docs/LOOK-BACK.md, d).
#[tactic(auto, using(std::proofs::lemmas::List::Folds::list_all_more))]
fn untouched(s: &[u8]) -> bool
    ensures { result ≡ list_all (λ byte. eqb byte 0xee) s.now }
{
    let mut same = true;
    for byte in s {
        same &= *byte == 0xee;
    }
    same
}

fn kept(kept: bool) -> &'static str {
    if kept { " kept" } else { " CHANGED" }
}

// What an export into a buffer of so many bytes answers, after its name, and whether the buffer holds what it held, behind those that were written.
fn export_into<const N: usize, W: Write, F: FnOnce(&mut [u8]) -> Result<usize, Refusal>>(
    out: &mut W,
    name: &str,
    export: F,
) -> io::Result<()>
    requires callable { F.IsAlwaysCallable export }
    requires size { N < 2 ^ 63 }
{
    let mut buffer = [0xee; N];
    match export(&mut buffer) {
        Ok(n) => {
            let behind = slice::part(&buffer, n, N);
            write!(out, "{name}{n}{}", kept(untouched(behind)))
        }
        Err(refusal) => {
            let number = u8::from(refusal);
            write!(out, "{name}refused {number}{}", kept(untouched(&buffer)))
        }
    }
}

// Whether a block of one event is taken, answers this refusal for it, and leaves the record as it was.
fn leaves(r: Record, e: Event, refusal: Refusal) -> bool {
    let mut bytes = [0; 33];
    let size = event_writer::write_event(e, &mut bytes).unwrap_or(0);
    let mut answers = [0];
    match block::apply_block(r, slice::part(&bytes, 0, size), &mut answers) {
        Ok(sent) => answers[0] == u8::from(refusal) && compare::same(r, sent.after),
        Err(_) => false,
    }
}

// The answer of a call, and of a refused one whether it leaves the record, which is then the next call's.
pub fn call<W: Write>(out: &mut W, name: &str, r: Record, e: Event) -> io::Result<Record> {
    match engine::apply(r, e) {
        Ok(after) => {
            write!(out, "{name}0")?;
            Ok(after)
        }
        Err(refusal) => {
            let kept = kept(leaves(r, e, refusal));
            write!(out, "{name}{}{kept}", u8::from(refusal))?;
            Ok(r)
        }
    }
}

// The rest of a line that begins with the record's name.
fn judge<W: Write>(out: &mut W, r: Record) -> io::Result<()> {
    let verdict = if engine::sound(r) {
        ": sound"
    } else {
        ": unsound"
    };
    out.write_all(verdict.as_bytes())?;
    call(out, ", power loss ", r, Event::PowerLoss(r.live.last))?;
    call(out, ", early power on ", r, Event::PowerOn(Milliseconds(0)))?;
    export_into::<700, _, _>(out, ", long ", |buffer| export::export_long(r, buffer))?;
    export_into::<200, _, _>(out, ", short ", |buffer| export::export_short(r, buffer))?;
    writeln!(out)
}

// The sound record with one thing changed, by the eight bytes of a case: what is changed, a place, a small number, the length of the
// case's name, and a number of four bytes.
// Kept: a byte for what is changed, matched here alone; an enum would need this match in a TryFrom and another at its use.
fn changed(head: &[u8]) -> Record {
    let place = slice::byte(head, 1);
    let small = word_reader::byte_at(head, 2);
    let n = word_reader::u32_at(head, 4);
    match slice::byte(head, 0) {
        0 => edit::battery(small),
        1 => edit::last(n),
        2 => edit::accounts(n as u64, 0),
        3 => edit::accounts(0, n as u64),
        4 => edit::mask((n % 65_536) as u16),
        5 => edit::previous(n, 0),
        6 => edit::previous(1_000, word_reader::i32_at(head, 4)),
        7 => edit::beyond(place, n),
        8 => edit::within(place, n),
        9 => edit::long(n as usize, place, small),
        _ => edit::short(n as usize, place, small),
    }
}

// A sound record's exports into buffers that are just long enough, and one byte shorter.
fn buffers<W: Write>(out: &mut W) -> io::Result<()> {
    let long = edit::long(LONG_TERM_ENTRIES, 0, 0);
    let short = edit::short(SHORT_TERM_ENTRIES, 0, 0);
    write!(out, "buffers")?;
    export_into::<640, _, _>(out, ", long ", |buffer| export::export_long(long, buffer))?;
    export_into::<639, _, _>(out, ", long ", |buffer| export::export_long(long, buffer))?;
    export_into::<156, _, _>(
        out,
        ", short ",
        |buffer| export::export_short(short, buffer),
    )?;
    export_into::<155, _, _>(
        out,
        ", short ",
        |buffer| export::export_short(short, buffer),
    )?;
    writeln!(out)
}

// A case's name stands after the eight bytes.
pub fn run<W: Write>(out: &mut W, table: &[u8]) -> io::Result<()> {
    for (head, name) in Cases::of(table, 8) {
        out.write_all(name)?;
        judge(out, changed(head))?;
    }
    buffers(out)
}
