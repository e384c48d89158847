// What a run of the program does next, and why the lines of a part end, which `lines` answers. All that decides it stands here; `console`
// does what is decided.
#![tactic(auto)]

ghost use Rattle.std.specs.Prelude.{◌≡◌, eqb};
ghost use Rattle.decision.specs.Decisions.{after_lines, after_part, after_read, reads, ends};

// Why no more events were taken from a part.
#[derive(Clone, Copy)]
pub enum Why {
    // the output has no room for another line
    Full,
    // no byte is left
    End,
    // the part ends within an event
    Cut,
    // bytes that can't be read, with document 01's number
    // Kept: any number and not a `Refusal` alone, since the clauses of `report::closing` speak of each.
    Refused(u8),
    // the event's number, or a position in the part, would not fit in 64 bits
    Spent,
}

#[derive(Clone, Copy, PartialEq, Eq)]
pub enum Next {
    // the rest of what is in the buffer
    Again,
    // a read
    Read,
    // the last line, and no more
    Close,
    // a failure, said on standard error: of a read, of a write, of the count of events
    Unread,
    Unwritten,
    Uncounted,
}

// After a part whose lines were all written: only a refusal closes the run, for where no byte is left the input may still go on.
fn after_lines(why: Why) -> Next
    ensures { result ≡ after_lines why }
{
    match why {
        Why::Full => Next::Again,
        Why::End | Why::Cut => Next::Read,
        Why::Refused(_) => Next::Close,
        Why::Spent => Next::Uncounted,
    }
}

// Whether the lines of a part were all written, of how many bytes were and how many there are.
pub fn all_written(put: usize, written: usize) -> bool
    ensures { result ≡ eqb put written }
{
    put == written
}

// After the lines of a part: nothing goes on, and nothing is closed, where they were not all written.
pub fn after_part(whole: bool, why: Why) -> Next
    ensures { result ≡ after_part whole why }
{
    if whole {
        after_lines(why)
    } else {
        Next::Unwritten
    }
}

// After a read: the input has ended only where the read answered 0.
pub fn after_read<E>(got: &Result<usize, E>) -> Next
    ensures { result ≡ after_read got.now }
{
    match got {
        Err(_) => Next::Unread,
        Ok(0) => Next::Close,
        Ok(_) => Next::Again,
    }
}

pub fn is_read(next: Next) -> bool
    ensures { result ≡ reads next }
{
    next == Next::Read
}

// Whether the run is over with it.
pub fn is_end(next: Next) -> bool
    ensures { result ≡ ends next }
{
    !matches!(next, Next::Again | Next::Read)
}
