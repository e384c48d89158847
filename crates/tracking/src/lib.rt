// Eight protections, tracked from one measurement to the next: their longest spans that end now, and which of them are tripped. All of it
// goes by masks, bit = number, so that most measurements are done with after a test or two.
#![tactic(auto)]

ghost use Rattle.std.specs.Prelude.{cond, ◌≡◌, ◌<◌};
ghost use Rattle.rules.specs.Shown.{bit_of};
ghost use Rattle.tracking.specs.Masks.{since_all, tracked_by};

use rules::units::Milliseconds;

// What a record keeps of the protections: the fields of the same names of what is watched.
#[derive(Clone, Copy)]
pub struct Kept {
    pub tripped: u8,
    pub beyond: u8,
    pub within: u8,
    pub since: [Milliseconds; 8],
}

// ---- the starts of the spans

// Kept: the same test of a bit in `due`, `tracking` and `watch_soundness`: shared, it would be public with a `requires`, which none may have.
fn since_at(begun: u8, protection: usize, t: Milliseconds, since: Milliseconds) -> Milliseconds
    requires { protection < 8 }
    ensures { result ≡ cond (bit_of begun protection) t since }
{
    if begun >> protection & 1 == 1 {
        t
    } else {
        since
    }
}

// Most measurements begin no span.
fn since_all(begun: u8, t: Milliseconds, since: [Milliseconds; 8]) -> [Milliseconds; 8]
    ensures { result ≡ since_all begun t since }
{
    if begun == 0 {
        return since;
    }
    let mut starts = since;
    for (protection, start) in starts.iter_mut().enumerate() {
        *start = since_at(begun, protection, t, *start);
    }
    starts
}

// ---- all of it

// By the masks of the protections that the measurement is beyond and within, if it is plausible, and its time. A span that does not go on
// begins now. Only a beyond protection that is clear may trip, and only a within one that is tripped may be released: no other is asked
// how long its span has lasted.
// Kept: two masks as parameters, as `tracked_by` has them: `protection::Masks` stands in a crate that this one does without.
pub fn track(beyond: u8, within: u8, t: Milliseconds, k: Kept) -> Kept
    ensures { result ≡ tracked_by beyond within t k }
{
    let inside = within & !beyond;
    let going = (beyond & k.beyond) | (inside & (k.within & !k.beyond));
    let begun = (beyond | inside) & !going;
    let since = since_all(begun, t, k.since);
    let asked = (beyond & !k.tripped) | (inside & k.tripped);
    let due = due::due(beyond, asked, t, since);
    Kept {
        tripped: (due & beyond) | (k.tripped & !(due & inside)),
        beyond,
        within: inside,
        since,
    }
}
