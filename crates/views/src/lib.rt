// What a caller prints of a record, as document 01's numbers. All but the counts of entries read the live part alone, so that a loop may
// keep the stores elsewhere.
#![tactic(auto)]

ghost use Rattle.std.specs.Prelude.{◌≡◌, length};
ghost use Rattle.rules.specs.Numbers.{state_number, command_number, override_number, test_number, contactor_number};
ghost use Rattle.rules.specs.Shown.{long_entries, short_entries};
ghost use Rattle.step.specs.Close.{contactor_of};

use rules::battery::Live;
use rules::stores::Stores;

pub fn state(l: Live) -> u8
    ensures { result ≡ state_number l.control.state }
{
    l.control.state as u8
}

pub fn command(l: Live) -> u8
    ensures { result ≡ command_number l.control.command }
{
    u8::from(l.control.command)
}

pub fn overriding(l: Live) -> u8
    ensures { result ≡ override_number l.control.overriding }
{
    u8::from(l.control.overriding)
}

pub fn test(l: Live) -> u8
    ensures { result ≡ test_number l.watch.test }
{
    l.watch.test as u8
}

pub fn contactor(l: Live) -> u8
    ensures { result ≡ contactor_number (contactor_of l) }
{
    u8::from(contactor::closes(l))
}

// The number of long-term entries.
// Kept: one for each store: a trait for a field of the same name is no plainer.
#[tactic(auto, using(rules::proofs::Lists::length_tabulate), unfolding(rules::specs::Shown::long_entries))]
pub fn long_count(s: Stores) -> usize
    ensures { result ≡ length (long_entries s.long) }
{
    s.long.count
}

// The number of short-term entries.
#[tactic(auto, using(rules::proofs::Lists::length_tabulate), unfolding(rules::specs::Shown::short_entries))]
pub fn short_count(s: Stores) -> usize
    ensures { result ≡ length (short_entries s.short) }
{
    s.short.count
}
