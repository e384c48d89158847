// What is kept of the session's measurements, so that the next one can be judged without them.
use crate::states::TestResult;
use crate::units::{Milliamperes, Milliseconds};

// The last measurement, if it was plausible: its time and current.
pub type Previous = Option<(Milliseconds, Milliamperes)>;

// Set by measurements; written anew by power on and power loss. Of the eight protections it has three masks, bit = number: those that are
// tripped, those whose longest span that ends at the last measurement is a beyond span, and those for which it is a within span; and for
// each the time of the first measurement of that span. Four bytes lead, so that no field stands behind a gap: gaps are copied piece by
// piece. specs/Shown has what these fields show of one protection.
// Kept: masks and an array, no array of a struct for each: that took 60 to 130 instructions an event more (docs/DECISIONS.md, "What is watched").
#[derive(Clone, Copy)]
pub struct Watch {
    pub test: TestResult,
    pub tripped: u8,
    pub beyond: u8,
    pub within: u8,
    pub mask: u16,
    pub failed: u32,
    pub previous: Previous,
    pub since: [Milliseconds; 8],
}
