// Records that differ from a sound one in one place. No list of calls leaves most of them.
use rules::battery::Record;
use rules::states::State;
use rules::units::{Charge, Milliamperes, Milliseconds};

// Type 1, Operational, its last time 1,000 ms, no entries, all else as in a fresh record; then changed.
fn with<F: FnOnce(&mut Record)>(change: F) -> Record
    requires { F.IsAlwaysCallable change }
{
    let mut r = engine::fresh(1).start;
    r.live.last = Milliseconds(1_000);
    r.live.control.state = State::Operational;
    change(&mut r);
    r
}

pub fn battery(n: u8) -> Record {
    with(|r| r.live.battery = n)
}

pub fn last(t: u32) -> Record {
    with(|r| r.live.last = Milliseconds(t))
}

pub fn accounts(charged: u64, discharged: u64) -> Record {
    with(|r| {
        r.live.tally.charged = Charge(charged);
        r.live.tally.discharged = Charge(discharged);
    })
}

pub fn commands(n: u32) -> Record {
    with(|r| r.live.tally.commands = n)
}

pub fn mask(mask: u16) -> Record {
    with(|r| r.live.watch.mask = mask)
}

pub fn previous(t: u32, i: i32) -> Record {
    with(|r| r.live.watch.previous = Some((Milliseconds(t), Milliamperes(i))))
}

// In a mask with bit = number; 0 for a number that has no protection.
fn weight(protection: usize) -> u8 {
    if protection < 8 { 1 << protection } else { 0 }
}

fn since(protection: usize, start: u32) -> [Milliseconds; 8] {
    let mut since = [Milliseconds(0); 8];
    if protection < 8 {
        since[protection] = Milliseconds(start);
    }
    since
}

// A protection with a beyond span; a number that has no protection leaves the record as it is.
pub fn beyond(protection: usize, start: u32) -> Record {
    with(|r| {
        r.live.watch.beyond = weight(protection);
        r.live.watch.since = since(protection, start);
    })
}

// Kept: beside `beyond`, since one function for both would take a closure, and a `requires` for it, for the one line that differs.
pub fn within(protection: usize, start: u32) -> Record {
    with(|r| {
        r.live.watch.within = weight(protection);
        r.live.watch.since = since(protection, start);
    })
}

// Long-term entries of protection 0 at 0 ms, save one place that holds another protection.
pub fn long(count: usize, place: usize, protection: u8) -> Record {
    with(|r| {
        if place < r.stores.long.protections.len() {
            r.stores.long.protections[place] = protection;
        }
        r.stores.long.count = count;
    })
}

// The same of the short-term store; the entry in that place is a release.
// Kept: beside `long`, since the two stores are two types, and only this one has releases.
pub fn short(count: usize, place: usize, protection: u8) -> Record {
    with(|r| {
        if place < r.stores.short.protections.len() {
            r.stores.short.protections[place] = protection;
            r.stores.short.releases[place] = true;
        }
        r.stores.short.count = count;
    })
}
