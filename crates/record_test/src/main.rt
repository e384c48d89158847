// Runs the engine on records that no log leaves: unsound ones and those just inside each limit, from the table on standard input, and one
// whose command count is next to its ceiling.
#![tactic(auto)]

mod ceiling;
mod compare;
mod edit;
mod limits;

use std::io;
use testing::files;

fn main(rt: HostRuntime) -> io::Result<()> {
    let mut table = [0; 65_536];
    let mut out = rt.stdout();
    limits::run(&mut out, files::read_full(&mut rt.stdin(), &mut table))?;
    ceiling::run(&mut out)
}
