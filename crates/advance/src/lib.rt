// What an accepted call makes of the live part of a record.
#![tactic(auto)]

ghost use Rattle.std.specs.Prelude.{◌≡◌, ◌≤◌};
ghost use Rattle.rules.specs.Quantities.{mission_time};
ghost use Rattle.rules.specs.Soundness.{account_limit};
ghost use Rattle.step.specs.Charge.{charge as charge_of};
ghost use Rattle.advance.specs.Room.{accounts_room, advance_within};

use rules::battery::{Control, Live, Tally};
use rules::calls::{Command, Event};
use rules::limits::COMMAND_CEILING;
use rules::sensors::Reading;
use rules::session::Previous;
use rules::states::{State, TestResult};
use rules::units::{Charge, Milliamperes, Milliseconds};

// What no account of a sound record exceeds: 2,000,000 mA for the whole mission time. What one measurement adds to it fits in 64 bits.
const ACCOUNT_LIMIT: Charge = Charge(691_200_000_000_000);

fn accounts_room(n: Tally) -> bool
    ensures { result ≡ accounts_room n }
{
    n.charged <= ACCOUNT_LIMIT && n.discharged <= ACCOUNT_LIMIT
}

// The current is that of the new measurement, at t.
fn charge(previous: Previous, plausible: bool, t: Milliseconds, i: Milliamperes, n: Tally) -> Tally
    requires { (n.charged.0 ≤ (account_limit mission_time).0) × (n.discharged.0 ≤ (account_limit mission_time).0) }
    ensures { result ≡ charge_of previous plausible t i n }
{
    match previous {
        Some((start, earlier)) if plausible => {
            let d = elapsed::elapsed(start, t);
            let gained = account::inflow(earlier, i, d);
            let lost = account::outflow(earlier, i, d);
            Tally {
                charged: Charge(n.charged.0 + gained.0),
                discharged: Charge(n.discharged.0 + lost.0),
                ..n
            }
        }
        _ => n,
    }
}

// Whether the measurement was plausible is what its test says: that is not worked out again.
fn measure(t: Milliseconds, r: Reading, l: Live) -> Live
    ensures { result ≡ advance_within (Event.Measurement t r) l }
{
    if !accounts_room(l.tally) {
        return l;
    }
    let watch = watch::observe(l.battery, t, r, l.watch);
    let plausible = watch.test == TestResult::Passed;
    let tally = charge(l.watch.previous, plausible, t, r.current, l.tally);
    Live {
        last: t,
        watch,
        tally,
        ..l
    }
}

fn command(t: Milliseconds, c: Command, l: Live) -> Live
    ensures { result ≡ advance_within (Event.ContactorCommand t c) l }
{
    if l.tally.commands >= COMMAND_CEILING {
        return l;
    }
    let control = Control {
        command: c,
        ..l.control
    };
    let tally = Tally {
        commands: l.tally.commands + 1,
        ..l.tally
    };
    Live {
        last: t,
        control,
        tally,
        ..l
    }
}

// The live part is given back as it was where its numbers have no room for what the call adds: never of a sound one, where the call is not
// refused.
// Kept: no Option of a live part, since `advance_live` can't fail and its clause says what is given back.
pub fn advance_live(l: Live, e: Event) -> Live
    ensures { result ≡ advance_within e l }
{
    match e {
        Event::Measurement(t, r) => measure(t, r, l),
        Event::PowerOn(t) => settings::begin(State::Dormant, t, l),
        Event::PowerLoss(t) => settings::begin(State::Unpowered, t, l),
        Event::ContactorCommand(t, c) => command(t, c, l),
        Event::StateRequest(t, q) => state_request::request(t, q, l),
        Event::BattleOverride(t, on) => settings::set_override(t, on, l),
        Event::ClearLongTerm(t) => settings::clear(t, l),
    }
}
