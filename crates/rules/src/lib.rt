// The types, refusals and limits that every other crate stands on. The rules over them are in specs/, one file for each heading of document 01
// and each request of document 02 that has landed.
#![tactic(auto)]

pub mod answers;
pub mod battery;
pub mod calls;
pub mod limits;
pub mod refusals;
pub mod sensors;
pub mod session;
pub mod states;
pub mod stores;
pub mod units;
