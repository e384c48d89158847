// What a battery is in: document 01, "States", "The built-in test" and "The contactor", each with the number that is printed of it.
#[derive(Clone, Copy, PartialEq, Eq)]
pub enum State {
    Unpowered = 0,
    Dormant = 1,
    Operational = 2,
    Maintenance = 3,
}

#[derive(Clone, Copy, PartialEq, Eq)]
pub enum TestResult {
    NotRun = 0,
    Passed = 1,
    Failed = 2,
}

#[derive(Clone, Copy, PartialEq, Eq)]
pub enum Contactor {
    Open = 0,
    Closed = 1,
}
