// Which of the eight protections are due, as a mask with bit = number: those asked whose span has lasted its hold time, if they are beyond, or
// else its release time.
#![tactic(auto)]

ghost use Rattle.std.specs.Prelude.{cond, ◌≡◌, ◌<◌};
ghost use Rattle.rules.specs.Shown.{bit_of};
ghost use Rattle.due.specs.Due.{due_at, due_all};

use rules::units::Milliseconds;

// Whether a mask has a protection.
// Kept: the same test of a bit in `due`, `tracking` and `watch_soundness`: shared, it would be public with a `requires`, which none may have.
fn has(mask: u8, protection: usize) -> bool
    requires { protection < 8 }
    ensures { result ≡ bit_of mask protection }
{
    mask >> protection & 1 == 1
}

// Whether one of them is due. The span of one that isn't asked is not looked at: most often one is asked or two.
fn due_at(beyond: bool, asked: bool, protection: u8, t: Milliseconds, since: Milliseconds) -> bool
    ensures { result ≡ due_at beyond asked protection t since }
{
    if !asked {
        return false;
    }
    let limit = if beyond {
        holds::hold(protection)
    } else {
        holds::release(protection)
    };
    limit <= elapsed::elapsed(since, t)
}

pub fn due(beyond: u8, asked: u8, t: Milliseconds, since: [Milliseconds; 8]) -> u8
    ensures { result ≡ due_all beyond asked t since }
{
    if asked == 0 {
        return 0;
    }
    let mut due = 0;
    for (protection, start) in since.iter().enumerate() {
        let is_beyond = has(beyond, protection);
        let is_asked = has(asked, protection);
        if due_at(is_beyond, is_asked, protection as u8, t, *start) {
            due += 1 << protection;
        }
    }
    due
}
