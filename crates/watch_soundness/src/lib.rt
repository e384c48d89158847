// Document 01, "Unsound": what of it the watch of a session can be, as a test.
#![tactic(auto)]

ghost use Rattle.std.specs.Prelude.{◌≡◌, not, ◌||◌, ◌<◌};
ghost use Rattle.rules.specs.Quantities.{◌≤ms◌};
ghost use Rattle.rules.specs.Lists.{all, tabulate};
ghost use Rattle.rules.specs.Shown.{bit_of, kept_at};
ghost use Rattle.step.specs.Sound.{started_by, measured_by, current_kept, watch_tests};

use rules::limits::{GREATEST_CURRENT, LEAST_CURRENT, MASK_BOUND};
use rules::session::{Previous, Watch};
use rules::units::Milliseconds;

// Of a protection: that its span, if the mask has it, started by the last time.
// Kept: the same test of a bit in `due`, `tracking` and `watch_soundness`: shared, it would be public with a `requires`, which none may have.
fn started_by(running: u8, protection: usize, last: Milliseconds, start: Milliseconds) -> bool
    requires { protection < 8 }
    ensures { result ≡ not (bit_of running protection) || (start ≤ms last) }
{
    (running >> protection) & 1 == 0 || start <= last
}

fn measured_by(last: Milliseconds, p: Previous) -> bool
    ensures { result ≡ measured_by last p }
{
    p.is_none_or(|(t, _)| t <= last)
}

fn current_kept(p: Previous) -> bool
    ensures { result ≡ current_kept p }
{
    p.is_none_or(|(_, i)| LEAST_CURRENT <= i && i <= GREATEST_CURRENT)
}

// Kept: a loop: with `iter().enumerate().all(..)` its clause stayed open (tried: the check's own search, no proof by hand).
fn spans_started(last: Milliseconds, w: Watch) -> bool
    ensures { result ≡ all (tabulate 8 (λ protection. started_by last (kept_at w protection).span)) }
{
    let running = w.beyond | w.within;
    for (protection, start) in w.since.iter().enumerate() {
        if !started_by(running, protection, last, *start) {
            return false;
        }
    }
    true
}

pub fn sound_watch(last: Milliseconds, w: Watch) -> bool
    ensures { result ≡ all (watch_tests last w) }
{
    w.mask < MASK_BOUND
        && measured_by(last, w.previous)
        && current_kept(w.previous)
        && spans_started(last, w)
}
