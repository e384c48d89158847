// The record that the engine keeps of one battery, nested by what can touch each part; the stores stand apart from what every call
// writes.
use crate::calls::Command;
use crate::session::Watch;
use crate::states::State;
use crate::stores::Stores;
use crate::units::{Charge, Milliseconds};

// Set by commands; written anew by power on and power loss.
#[derive(Clone, Copy)]
pub struct Control {
    pub state: State,
    pub command: Command,
    pub overriding: bool,
}

// Survives a power loss.
#[derive(Clone, Copy)]
pub struct Tally {
    pub commands: u32,
    pub charged: Charge,
    pub discharged: Charge,
}

// Kept: the battery type is a number, since an unsound record holds any (rules:Soundness.Sound.battery) and `engine::fresh` answers for each.
// The last time leads, and the battery type and the control fill the eight bytes up, so that no field stands behind a gap.
#[derive(Clone, Copy)]
pub struct Live {
    pub last: Milliseconds,
    pub battery: u8,
    pub control: Control,
    pub watch: Watch,
    pub tally: Tally,
}

#[derive(Clone, Copy)]
pub struct Record {
    pub live: Live,
    pub stores: Stores,
}
