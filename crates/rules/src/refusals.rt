// Document 01, "Where each number is raised": each refusal once, with its number, under the rows of the table that raise it; then those of
// document 02.
ghost use Rattle.std.specs.Prelude.{◌≡◌};
ghost use Rattle.rules.specs.Numbers.{refusal_number, number_of};

#[derive(Clone, Copy, PartialEq, Eq)]
pub enum Refusal {
    // fresh record: "type not 1, 2, 3"
    UnknownType = 1,
    // reading bytes: "kind unknown to that reader"
    UnknownKind = 2,
    // reading bytes: "body cut short"
    CutShort = 3,
    // reading bytes: "last byte not in its list, or protection number above 7"; writing: "written record's protection number above 7"
    NotListed = 4,
    // a call: "unsound record"; export: "export of an unsound record"
    Unsound = 5,
    // a call: "time below last accepted time"
    TimeBelowLast = 6,
    // a call: "time above 345,600,000"
    TimeAboveMission = 7,
    // a call: "power on while powered, or any other call while Unpowered"
    WrongPower = 8,
    // a call: "state request not allowed"
    RequestNotAllowed = 9,
    // a call: "command, override or clear not allowed"
    OtherNotAllowed = 10,
    // writing, export: "buffer shorter than the bytes due"
    NoRoom = 11,
    // document 02, S-1, a block: "more than 1,000 readable events"
    TooManyEvents = 12,
    // a block: "answer buffer shorter than the number of readable events"
    TooFewAnswers = 13,
}

impl From<Refusal> for u8 {
    ghost from_gives = { λ refusal number. number ≡ refusal_number refusal };

    fn from(value: Refusal) -> u8 {
        value as u8
    }
}

// The number that is answered: 0 where nothing is refused.
pub fn number_of(refusal: Option<Refusal>) -> u8
    ensures { result ≡ number_of refusal }
{
    match refusal {
        None => 0,
        Some(refusal) => u8::from(refusal),
    }
}
