// What the test programs share: what they print, the files that their arguments name, parts of what they read, and tables of cases.
#![tactic(auto)]

pub mod files;
pub mod print;
pub mod slice;
pub mod table;
