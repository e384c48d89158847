// What a measurement makes of what is watched: test, failed sensors, spans and trips. It sees battery, time, reading and itself alone.
#![tactic(auto)]

ghost use Rattle.std.specs.Prelude.{◌≡◌, cond};
ghost use Rattle.rules.specs.declared.states.TestResult.TheVariants.{Passed, Failed as TestFailed};
ghost use Rattle.std.specs.Int.Count.{ones};
ghost use Rattle.rules.specs.Test.{failed_mask};
ghost use Rattle.step.specs.Track.{previous_by, observe as observe_of};
ghost use Rattle.watch.specs.Kept.{kept_by, is_settled, calm_seen, seen_by, shown_with, watched_by};

use rules::sensors::Reading;
use rules::session::{Previous, Watch};
use rules::states::TestResult;
use rules::units::{Milliamperes, Milliseconds};
use tracking::Kept;

// What a measurement shows: whether it is plausible; the protections that it then is beyond and those that it is within, as masks with bit =
// number; its failed sensors.
// Kept: `plausible` beside masks that are 0 without it, no Result: a measurement that is not plausible is tracked too, and specs/Kept names the fields.
#[derive(Clone, Copy)]
pub struct Seen {
    pub plausible: bool,
    pub beyond: u8,
    pub within: u8,
    pub mask: u16,
}

// Kept: a time and a current as two parameters, here and in `advance`: what is kept of both is the pair that this makes.
fn previous_of(plausible: bool, t: Milliseconds, i: Milliamperes) -> Previous
    ensures { result ≡ previous_by plausible t i }
{
    plausible.then_some((t, i))
}

// Kept: an `if` in one place: a `From<bool>` would not say what is true of it.
fn test_of(plausible: bool) -> TestResult
    ensures { result ≡ cond plausible Passed TestFailed }
{
    if plausible {
        TestResult::Passed
    } else {
        TestResult::Failed
    }
}

// No sensor of a plausible measurement failed: its mask is not computed.
fn mask_of(plausible: bool, r: Reading) -> u16
    ensures { result ≡ cond plausible 0 (failed_mask r) }
{
    if plausible {
        return 0;
    }
    reading::failed_mask(r)
}

// Nor are its failed sensors counted.
// Kept: the test for 0: `count_ones` alone is 17 instructions without popcnt (rustc's assembly, opt-level 3), on a plausible measurement too.
fn count_of(mask: u16) -> u32
    ensures { result ≡ ones mask }
{
    if mask == 0 {
        0
    } else {
        reading::failed_count(mask)
    }
}

// The sides of a measurement that is not plausible are not asked.
fn if_plausible(plausible: bool, side: u8) -> u8
    ensures { result ≡ cond plausible side 0 }
{
    if plausible { side } else { 0 }
}

// Kept: no part of `Watch` that is a `Kept`: step's definitions and theorems, `keeping` first, name these fields of a watch.
fn kept(w: Watch) -> Kept
    ensures { result ≡ kept_by w }
{
    let since = w.since;
    Kept {
        tripped: w.tripped,
        beyond: w.beyond,
        within: w.within,
        since,
    }
}

// Every protection is in a within span, and none is tripped.
fn settled(w: Watch) -> bool
    ensures { result ≡ is_settled w }
{
    (w.beyond | w.tripped) == 0 && w.within == 255
}

// What is watched after a calm measurement where all was settled: nothing is tracked anew.
fn stay(t: Milliseconds, i: Milliamperes, w: Watch) -> Watch
    ensures { result ≡ shown_with calm_seen t i (kept_by w) }
{
    Watch {
        test: TestResult::Passed,
        mask: 0,
        failed: 0,
        previous: Some((t, i)),
        ..w
    }
}

// A calm measurement is plausible, within all limits and beyond none: its sensors and its sides are not asked one by one.
fn examine(calm: bool, battery: u8, r: Reading) -> Seen
    ensures { result ≡ seen_by calm battery r }
{
    if calm {
        return Seen {
            plausible: true,
            beyond: 0,
            within: 255,
            mask: 0,
        };
    }
    let plausible = reading::plausible(r);
    let sides = protection::sides(battery, r);
    Seen {
        plausible,
        beyond: if_plausible(plausible, sides.beyond),
        within: if_plausible(plausible, sides.within),
        mask: mask_of(plausible, r),
    }
}

// What is watched after a measurement of which that is seen. It has one caller, so that what is kept is not copied for a call.
fn watched(s: Seen, t: Milliseconds, i: Milliamperes, w: Watch) -> Watch
    ensures { result ≡ watched_by s t i w }
{
    let k = tracking::track(s.beyond, s.within, t, kept(w));
    let since = k.since;
    Watch {
        test: test_of(s.plausible),
        tripped: k.tripped,
        beyond: k.beyond,
        within: k.within,
        mask: s.mask,
        failed: count_of(s.mask),
        previous: previous_of(s.plausible, t, i),
        since,
    }
}

pub fn observe(battery: u8, t: Milliseconds, r: Reading, w: Watch) -> Watch
    ensures { result ≡ observe_of battery t r w }
{
    let calm = calm::is_calm(battery, r);
    if calm && settled(w) {
        return stay(t, r.current, w);
    }
    watched(examine(calm, battery, r), t, r.current, w)
}
