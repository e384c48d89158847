// Runs `report` and `lines` on the log on its standard input and prints what comes out: for each prefix, then for all of it in two parts,
// divided at each place, then with room for one line at a time.
#![tactic(auto)]

ghost use Rattle.std.specs.Prelude.{◌≡◌, ◌≤◌, length, IfOk};
ghost use Rattle.report_test.specs.Full.{is_full};

use decision::Why;
use lines::{Part, Progress};
use rules::refusals::number_of;
use std::io;
use std::io::Write;
use testing::{files, slice};

// Kept: beside the one of `console`, which can't fail and says a failed write on standard error; here `?` hands it on.
fn close<W: Write>(out: &mut W, after: Progress, why: Why) -> io::Result<()> {
    let mut text = [0; 4096];
    let n = report::closing(after, why, &mut text);
    out.write_all(&text[..n])
}

// Prints the lines of a part, as many as a buffer has room for.
fn lines<W: Write>(out: &mut W, part: &[u8], before: Progress, text: &mut [u8]) -> io::Result<Part>
    ensures { IfOk result (λ p. p.read ≤ length part.now) }
{
    let p = lines::put_lines(part, before, text);
    out.write_all(&text[..p.written])?;
    Ok(p)
}

// The text of a log that is handed over whole.
// Kept: beside `divided`, since a list of parts can't say that the second one begins with what the first left unread.
fn whole<W: Write>(out: &mut W, log: &[u8]) -> io::Result<()> {
    let opening = report::opening(log);
    let Some((_, events)) = log.split_first() else {
        let why = Why::Refused(number_of(opening.refusal));
        return close(out, opening.progress, why);
    };
    let mut text = [0; 4096];
    let part = lines(out, events, opening.progress, &mut text)?;
    close(out, part.progress, part.why)
}

// The text of a log that is handed over in two parts, what the first left unread with the second.
fn divided<W: Write>(out: &mut W, log: &[u8], n: usize) -> io::Result<()> {
    let mut text = [0; 4096];
    let opening = report::opening(slice::part(log, 0, n));
    let first = lines(out, slice::part(log, 1, n), opening.progress, &mut text)?;
    let unread = slice::part(log, 1usize.wrapping_add(first.read), log.len());
    let second = lines(out, unread, first.progress, &mut text)?;
    close(out, second.progress, second.why)
}

// Kept: a loop beside that of `divisions`: with a closure for what it prints, heading and range would be parameters too.
fn prefixes<W: Write>(out: &mut W, log: &[u8]) -> io::Result<()> {
    for n in 0..=log.len() {
        writeln!(out, "== {n}")?;
        whole(out, slice::part(log, 0, n))?;
    }
    Ok(())
}

fn divisions<W: Write>(out: &mut W, log: &[u8]) -> io::Result<()> {
    for n in 1..=log.len() {
        writeln!(out, "== {n} and on")?;
        divided(out, log, n)?;
    }
    Ok(())
}

fn is_full(why: Why) -> bool
    ensures { result ≡ is_full why }
{
    matches!(why, Why::Full)
}

// With room for one line of the longest kind: each call is cut off by its buffer or by the end.
fn line_by_line<W: Write>(out: &mut W, log: &[u8]) -> io::Result<()> {
    writeln!(out, "== line by line")?;
    let mut progress = report::opening(log).progress;
    let Some((_, events)) = log.split_first() else {
        return Ok(());
    };
    let mut rest = events;
    loop {
        let mut text = [0; 72];
        let part = lines(out, rest, progress, &mut text)?;
        if !is_full(part.why) {
            return close(out, part.progress, part.why);
        }
        if part.read == 0 {
            return Ok(());
        }
        progress = part.progress;
        rest = &rest[part.read..];
    }
}

fn main(rt: HostRuntime) -> io::Result<()> {
    let mut buffer = [0; 4096];
    let mut out = rt.stdout();
    let log = files::read_full(&mut rt.stdin(), &mut buffer);
    prefixes(&mut out, log)?;
    divisions(&mut out, log)?;
    line_by_line(&mut out, log)
}
