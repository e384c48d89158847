// The first part of a call: whether it is refused, what it makes of the live part, and whether the stores change, which are then written by
// themselves. Soundness is in two parts too, so that a loop may test once what no call changes.
#![tactic(auto)]

ghost use Rattle.std.specs.Prelude.{◌≡◌};
ghost use Rattle.rules.specs.Numbers.{number_of};
ghost use Rattle.step.specs.Refusal.{refusal_tested};
ghost use Rattle.step.specs.Sound.{sound_rest};
ghost use Rattle.step.proofs.Shaped.{Shaped};
ghost use Rattle.judging.specs.Judging.{judgement_of, judged, judged_tested};

use rules::battery::Live;
use rules::calls::Event;
use rules::refusals::Refusal;
use rules::stores::Stores;

// What a call makes of the live part, with its refusal, and whether the stores change.
// Kept: `Judged` is a struct and no Result, since the line of a refused call too shows the live part (`lines::take_lines`).
#[derive(Clone, Copy)]
pub struct Judged {
    pub refusal: Option<Refusal>,
    pub live: Live,
    pub changed: bool,
}

// What no call changes of soundness: every call leaves a record of which it is the same, since the arrays have the lengths of their types.
pub fn rest_sound(live: Live, stores: Stores) -> bool
    ensures is { result ≡ sound_rest (record { live = live; stores = stores }) }
    ensures shaped { Shaped (record { live = live; stores = stores }) }
{
    soundness::rest(live, stores)
}

// The refusal of a call where that was tested before, with this result: the accounts are tested here, and the stores are not asked for.
fn refusal_tested(rest: bool, live: Live, event: Event) -> Option<Refusal>
    ensures { number_of result ≡ refusal_tested rest live event }
{
    if rest & soundness::accounts(live) {
        return refusal::refusal(live, event);
    }
    Some(Refusal::Unsound)
}

// A call where the rest of soundness was tested before, with this result. A refused one leaves the live part and the stores. The answer is put
// together in one place: docs/DECISIONS.md, "One way out, one caller".
// Kept: `rest` is any bool: a type that only `rest_sound` makes would ask more of callers, and the clause answers for both.
pub fn judge_tested(rest: bool, live: Live, event: Event) -> Judged
    ensures { judgement_of result ≡ judged_tested rest live event }
{
    let refusal = refusal_tested(rest, live, event);
    let accepted = refusal.is_none();
    let after = if accepted {
        advance::advance_live(live, event)
    } else {
        live
    };
    let changed = accepted && changes::changes_stores(live, after, event);
    Judged {
        refusal,
        live: after,
        changed,
    }
}

pub fn judge(live: Live, stores: Stores, event: Event) -> Judged
    ensures { judgement_of result ≡ judged live stores event }
{
    judge_tested(rest_sound(live, stores), live, event)
}
