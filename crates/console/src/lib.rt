// The program on a reader and writers: it reads a log in parts and writes the lines that `lines` makes of each. A run that fails says so on
// the writer for errors and writes no last line, so that what it wrote never looks like a whole table.
#![tactic(auto)]

mod parts;

use decision::Why;
use parts::{RunState, Streams};
use rules::refusals;
use std::io::{Read, Write};

// The input is a type byte and then events; the output is a line for each event and a last line.
pub fn run<I: Read, O: Write, E: Write>(input: &mut I, output: &mut O, errors: &mut E) {
    let mut streams = Streams {
        input,
        output,
        errors,
    };
    let mut bytes = [0u8; 65_536];
    let have = match transfer::read_some(streams.input, &mut bytes) {
        Ok(got) => got,
        Err(why) => {
            streams.cannot_read(why);
            return;
        }
    };
    let opening = report::opening(&bytes[..have]);
    let progress = opening.progress;
    if have == 0 || opening.refusal.is_some() {
        let number = refusals::number_of(opening.refusal);
        streams.close(progress, Why::Refused(number));
        return;
    }
    let start = RunState {
        progress,
        at: 1,
        have,
        whole: true,
        done: false,
    };
    let mut text = [0u8; 65_536];
    streams.all(start, &mut bytes, &mut text);
}
