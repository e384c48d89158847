// What functions answer. A function that only tests answers `Option<Refusal>`, `None` where nothing is refused; one that gives a value
// answers `Result`.
use crate::battery::Record;
use crate::refusals::Refusal;

// A reader can't go on: the refusal, and the position of the kind byte.
#[derive(Clone, Copy)]
pub struct Unreadable<R> {
    pub refusal: R,
    pub position: usize,
}

// What stands at a position of a log, and the position after it; `None` where no byte is left.
pub type ReadResult<T> = Result<Option<(T, usize)>, Unreadable<Refusal>>;

// A fresh record.
// Kept: a refusal with a record beside it, since document 01 owes the record of type 1 beside refusal 1 (rules:Claims.FreshOf.of_its_type).
#[derive(Clone, Copy)]
pub struct Fresh {
    pub refusal: Option<Refusal>,
    pub start: Record,
}
