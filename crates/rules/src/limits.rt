// The papers' limits that more than one place of the code tests, or that a type is built on: each once, in its unit. A wrong one is
// refused where it is used, by the contract that states it in the papers' own figure. The headings are document 01's, but for the last.
use crate::units::{DeciCelsius, Milliamperes, Milliseconds, Millivolts};

// ---- "Quantities"

// "Time runs from 0 to 345,600,000 ms"
pub const MISSION_TIME: Milliseconds = Milliseconds(345_600_000);

// "battery types 1 and 2", "Type 3"
pub const LEAST_TYPE: u8 = 1;

pub const GREATEST_TYPE: u8 = 3;

// ---- "States"

// "once it is 4,294,967,295, no further contactor command is allowed"
pub const COMMAND_CEILING: u32 = 4_294_967_295;

// ---- "The built-in test"

// "every cell is 500 to 5,000"
pub const LEAST_CELL: Millivolts = Millivolts(500);

pub const GREATEST_CELL: Millivolts = Millivolts(5_000);

// "the current -2,000,000 to 2,000,000"
pub const LEAST_CURRENT: Milliamperes = Milliamperes(-2_000_000);

pub const GREATEST_CURRENT: Milliamperes = Milliamperes(2_000_000);

// "every temperature -540 to 880"
pub const LEAST_TEMPERATURE: DeciCelsius = DeciCelsius(-540);

pub const GREATEST_TEMPERATURE: DeciCelsius = DeciCelsius(880);

// "a 13-bit mask": every one is below this
pub const MASK_BOUND: u16 = 8_192;

// ---- "Protections", "Stores and accounts"

// "protection number above 7"
pub const GREATEST_PROTECTION: u8 = 7;

// "the first 64 trip entries"
pub const LONG_TERM_ENTRIES: usize = 64;

// "the session's last 16 trip and release entries"
pub const SHORT_TERM_ENTRIES: usize = 16;

// ---- document 02, S-1

// "a block of up to 1,000 events"
pub const BLOCK_EVENTS: usize = 1_000;
