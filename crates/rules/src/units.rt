// Document 01, "Quantities": one type for each unit, so that one is never accepted for another.
#[derive(Clone, Copy, PartialEq, Eq, PartialOrd, Ord)]
pub struct Millivolts(pub u16);

// Positive on charge.
#[derive(Clone, Copy, PartialEq, Eq, PartialOrd, Ord)]
pub struct Milliamperes(pub i32);

#[derive(Clone, Copy, PartialEq, Eq, PartialOrd, Ord)]
pub struct Milliseconds(pub u32);

// Tenths of a degree Celsius.
#[derive(Clone, Copy, PartialEq, Eq, PartialOrd, Ord)]
pub struct DeciCelsius(pub i16);

// Milliampere-milliseconds.
#[derive(Clone, Copy, PartialEq, Eq, PartialOrd, Ord)]
pub struct Charge(pub u64);
