// Prints the permitted charge current: for types 1, 2 and 3, and for 0 and 255, which are none, at every temperature that has a row, at the
// tenth before the first row, at the two after the last, and at the least and the greatest. A line is a type, a temperature in tenths of a
// degree and a current in mA.
#![tactic(auto)]

use rules::units::DeciCelsius;
use std::io;
use std::io::Write;

fn line<W: Write>(out: &mut W, battery: u8, coldest: i16) -> io::Result<()> {
    let limit = permitted::permitted(battery, DeciCelsius(coldest));
    writeln!(out, "{battery} {coldest} {}", limit.0)
}

fn lines<W: Write>(out: &mut W, battery: u8) -> io::Result<()> {
    line(out, battery, i16::MIN)?;
    for tenths in -1..252 {
        line(out, battery, tenths)?;
    }
    line(out, battery, i16::MAX)
}

fn main(rt: HostRuntime) -> io::Result<()> {
    let mut out = rt.stdout();
    for battery in [1, 2, 3, 0, 255] {
        lines(&mut out, battery)?;
    }
    Ok(())
}
