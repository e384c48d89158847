// Runs each log that its arguments name through the console, as `sixt` runs its standard input, under a heading.
#![tactic(auto)]

use std::io::Write;
use std::{env, io};
use testing::files;

fn main(rt: HostRuntime) -> io::Result<()> {
    let mut out = rt.stdout();
    let mut errors = rt.stderr();
    for i in 1..env::args(&rt)?.len() {
        write!(out, "== ")?;
        files::print_name(&rt, &mut out, i)?;
        writeln!(out)?;
        if let Ok(mut log) = files::open(&rt, &mut errors, i) {
            console::run(&mut log, &mut out, &mut errors);
        }
    }
    Ok(())
}
