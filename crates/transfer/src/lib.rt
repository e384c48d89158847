// Reads and writes that a signal does not break off.
#![tactic(auto)]

ghost use Rattle.std.specs.Prelude.{◌≤◌, ◌<◌, length, IfOk, IfErr};
ghost use Rattle.transfer.specs.Reason.{IsWithoutNumber};
ghost use Rattle.transfer.specs.Retry.{Called};

use std::io::{Cursor, ErrorKind, Read, Write};
use std::{io, str};

// Not all bytes of a slice were written: how many were, and why no more.
#[derive(Clone, Copy)]
pub struct Unwritten {
    pub count: usize,
    pub error: io::Error,
}

// Calls until a call is not broken off by a signal. What it counted is bounded by what no call changes.
fn retry<F: FnMut() -> io::Result<usize>>(mut call: F) -> io::Result<usize>
    requires { F.IsAlwaysCallable call }
    ensures { Called F.step call result }
{
    for _ in 0..u64::MAX {
        match call() {
            Err(error) if error.kind() == ErrorKind::Interrupted => (),
            answer => return answer,
        }
    }
    Err(io::Error::from(ErrorKind::Interrupted))
}

// One read that a signal did not break off: how many bytes it put at the start of the buffer, 0 at the end of the input, or why it
// failed.
pub fn read_some<R: Read>(input: &mut R, buffer: &mut [u8]) -> io::Result<usize>
    ensures { IfOk result (λ n. n ≤ length buffer.old) }
{
    retry(|| input.read(buffer))
}

fn write_some<W: Write>(output: &mut W, bytes: &[u8]) -> io::Result<usize>
    ensures { IfOk result (λ n. n ≤ length bytes.now) }
{
    retry(|| output.write(bytes))
}

// Writes the bytes. Where not all were written, the error says how many were, and why.
pub fn write_all<W: Write>(output: &mut W, bytes: &[u8]) -> Result<(), Unwritten>
    ensures { IfErr result (λ why. why.count < length bytes.now) }
{
    let mut rest = bytes;
    while !rest.is_empty() {
        let count = bytes.len() - rest.len();
        match write_some(output, rest) {
            Ok(0) => {
                return Err(Unwritten {
                    count,
                    error: io::Error::from(ErrorKind::WriteZero),
                });
            }
            Ok(n) => rest = &rest[n..],
            Err(error) => return Err(Unwritten { count, error }),
        }
    }
    Ok(())
}

// The text of an error ends in the number that the system has for it.
fn without_number(text: &[u8]) -> &[u8]
    ensures { IsWithoutNumber text.now result.now }
{
    match str::from_utf8(text).map(|words| words.rsplit_once(" (os error ")) {
        Ok(Some((reason, _))) => reason.as_bytes(),
        _ => text,
    }
}

// A line that says what failed and why. Where it can't be written, there is nowhere left to say so.
// Kept: bytes for what failed, since a file's name need not be text.
pub fn fail<E: Write>(errors: &mut E, what: &[u8], why: io::Error) {
    let mut text = Cursor::new([0u8; 256]);
    let _ = write!(text, "{why}");
    let end = text.position() as usize;
    let buffer = text.into_inner();
    let _ = errors.write_all(what);
    let _ = errors.write_all(b": ");
    let _ = errors.write_all(without_number(&buffer[..end.min(256)]));
    let _ = errors.write_all(b"\n");
}
