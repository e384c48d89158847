// Reads a log on standard input and prints its table on standard output (document 01, "The program").
#![tactic(auto)]

use std::io;
use std::io::{ErrorKind, Write};
use std::process::ExitCode;

// What a shell says of a program that SIGPIPE ended, which no program of today's Rattle gets.
const CLOSED_PIPE: u8 = 141;

// A writer that knows whether it was found that nobody reads what is written.
#[derive(Drop)]
struct Output<W> {
    inner: W,
    closed: bool,
}

impl<W: Write> Write for Output<W> {
    fn write(&mut self, buf: &[u8]) -> io::Result<usize> {
        let put = self.inner.write(buf);
        if let Err(why) = put {
            if why.kind() == ErrorKind::BrokenPipe {
                self.closed = true;
            }
        }
        put
    }

    fn flush(&mut self) -> io::Result<()> {
        self.inner.flush()
    }
}

fn main(rt: HostRuntime) -> ExitCode {
    let mut output = Output {
        inner: rt.stdout(),
        closed: false,
    };
    console::run(&mut rt.stdin(), &mut output, &mut rt.stderr());
    if output.closed {
        ExitCode::from(CLOSED_PIPE)
    } else {
        ExitCode::SUCCESS
    }
}
