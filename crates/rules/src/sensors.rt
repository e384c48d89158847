// What one measurement reads: 13 sensors.
// Kept: a field for each: "a reading struct of plain fields" is a form that document 01 expects.
use crate::units::{DeciCelsius, Milliamperes, Millivolts};

#[derive(Clone, Copy)]
pub struct Reading {
    pub cell0: Millivolts,
    pub cell1: Millivolts,
    pub cell2: Millivolts,
    pub cell3: Millivolts,
    pub cell4: Millivolts,
    pub cell5: Millivolts,
    pub cell6: Millivolts,
    pub cell7: Millivolts,
    pub current: Milliamperes,
    pub temperature0: DeciCelsius,
    pub temperature1: DeciCelsius,
    pub temperature2: DeciCelsius,
    pub temperature3: DeciCelsius,
}

// The cells and temperatures that the protections look at.
#[derive(Clone, Copy)]
pub struct Extremes {
    pub highest: Millivolts,
    pub lowest: Millivolts,
    pub hottest: DeciCelsius,
    pub coldest: DeciCelsius,
}
