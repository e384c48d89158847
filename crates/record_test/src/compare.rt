// Whether two records are the same, uncounted places of their stores and starts that no mask tells of included.
use rules::battery::{Live, Record};
use rules::session::Watch;
use rules::stores::{LongTerm, ShortTerm};

fn same_watch(a: Watch, b: Watch) -> bool {
    a.test == b.test
        && a.tripped == b.tripped
        && a.beyond == b.beyond
        && a.within == b.within
        && a.mask == b.mask
        && a.failed == b.failed
        && a.previous == b.previous
        && a.since == b.since
}

fn same_live(a: Live, b: Live) -> bool {
    a.battery == b.battery
        && a.last == b.last
        && a.control.state == b.control.state
        && a.control.command == b.control.command
        && a.control.overriding == b.control.overriding
        && a.tally.commands == b.tally.commands
        && a.tally.charged == b.tally.charged
        && a.tally.discharged == b.tally.discharged
        && same_watch(a.watch, b.watch)
}

fn same_long(a: LongTerm, b: LongTerm) -> bool {
    a.count == b.count
        && a.times == b.times
        && a.protections == b.protections
        && a.values == b.values
}

fn same_short(a: ShortTerm, b: ShortTerm) -> bool {
    a.count == b.count
        && a.times == b.times
        && a.protections == b.protections
        && a.values == b.values
        && a.releases == b.releases
}

pub fn same(a: Record, b: Record) -> bool {
    same_live(a.live, b.live)
        && same_long(a.stores.long, b.stores.long)
        && same_short(a.stores.short, b.stores.short)
}
