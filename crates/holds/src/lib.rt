// The hold and the release time of each row of document 01's table.
#![tactic(auto)]

ghost use Rattle.std.specs.Prelude.{◌≡◌, ℕ};
ghost use Rattle.rules.specs.Protections.{row_of};
ghost use Rattle.holds.specs.Times.{times_of};

use rules::units::Milliseconds;

#[derive(Clone, Copy)]
struct Times {
    hold: Milliseconds,
    release: Milliseconds,
}

static TIMES: [Times; 8] = [
    Times {
        hold: Milliseconds(500),
        release: Milliseconds(2000),
    },
    Times {
        hold: Milliseconds(2000),
        release: Milliseconds(2000),
    },
    Times {
        hold: Milliseconds(1000),
        release: Milliseconds(5000),
    },
    Times {
        hold: Milliseconds(1000),
        release: Milliseconds(5000),
    },
    Times {
        hold: Milliseconds(3000),
        release: Milliseconds(10000),
    },
    Times {
        hold: Milliseconds(0),
        release: Milliseconds(1000),
    },
    Times {
        hold: Milliseconds(30500),
        release: Milliseconds(10000),
    },
    Times {
        hold: Milliseconds(10000),
        release: Milliseconds(10000),
    },
];

// Row 0 answers for a number that has no row. No time depends on the battery type.
// Kept: the protection is a number, since the clauses of `hold` and `release` answer for each.
fn times_of(protection: u8) -> Times
    ensures { (battery : ℕ) → result ≡ times_of (row_of battery protection) }
{
    *TIMES.get(usize::from(protection)).unwrap_or(&TIMES[0])
}

pub fn hold(protection: u8) -> Milliseconds
    ensures { (battery : ℕ) → result ≡ (row_of battery protection).hold }
{
    times_of(protection).hold
}

pub fn release(protection: u8) -> Milliseconds
    ensures { (battery : ℕ) → result ≡ (row_of battery protection).release }
{
    times_of(protection).release
}
