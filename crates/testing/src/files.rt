// The files that a program's arguments name.
ghost use Rattle.std.specs.Prelude.{◌≤◌, length};
ghost use Rattle.testing.specs.Files.{Opened};

use std::io::{ErrorKind, Read, Write};
use std::rt::{Env, Files};
use std::{fs, io, str};

// The longest name of a file.
const PATH: usize = 4096;

// Argument i, at the start of a buffer. There are no bytes where there is none.
fn argument<'a, R: Env>(rt: &R, i: usize, path: &'a mut [u8]) -> &'a [u8]
    ensures { length result.now ≤ length path.entry.now }
{
    match rt.arg(i, path) {
        Ok(length) => &path[..length],
        Err(_) => &[],
    }
}

// Prints argument i.
pub fn print_name<R: Env, W: Write>(rt: &R, out: &mut W, i: usize) -> io::Result<()> {
    let mut buffer = [0u8; PATH];
    out.write_all(argument(rt, i, &mut buffer))
}

fn open_path<R: Files>(rt: &R, path: &[u8]) -> io::Result<R::File> {
    match str::from_utf8(path) {
        Ok(name) => fs::open(rt, name),
        Err(_) => Err(io::Error::from(ErrorKind::InvalidInput)),
    }
}

// The file that argument i names, open for reading. Where there is none, standard error says why, and the answer is -1.
// Kept: a number for that, which the must-fail edit no_file_answered_as_minus_2 and Opened of specs/Files speak of.
// Kept: the runtime, the writer for errors and a number as parameters: a struct of the three would be made for each call.
pub fn open<R: Env + Files, E: Write>(rt: &R, errors: &mut E, i: usize) -> Result<R::File, i32>
    ensures { Opened result }
{
    let mut buffer = [0u8; PATH];
    let path = argument(rt, i, &mut buffer);
    match open_path(rt, path) {
        Ok(file) => Ok(file),
        Err(why) => {
            transfer::fail(errors, path, why);
            Err(-1)
        }
    }
}

// Reads until a buffer is full, the input ends or a read fails, and answers the bytes that were read, which stand at the buffer's start.
pub fn read_full<'a, I: Read>(input: &mut I, buffer: &'a mut [u8]) -> &'a [u8]
    ensures { length result.now ≤ length buffer.entry.now }
{
    // Kept: a count, since the answer is the buffer's first bytes, that many; a `&mut` slice that shrinks would need the count besides.
    let mut done = 0;
    while done < buffer.len() {
        match transfer::read_some(input, &mut buffer[done..]) {
            Ok(n) if 0 < n => done += n,
            _ => break,
        }
    }
    &buffer[..done]
}

// The bytes of the file that argument i names, as far as a buffer has room for them.
pub fn read<'a, R: Env + Files, E: Write>(
    rt: &R,
    errors: &mut E,
    i: usize,
    buffer: &'a mut [u8],
) -> &'a [u8]
    ensures { length result.now ≤ length buffer.entry.now }
{
    match open(rt, errors, i) {
        Ok(mut file) => read_full(&mut file, buffer),
        Err(_) => &[],
    }
}
