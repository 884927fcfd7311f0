//! Schedules that are made of a number: calls that a generator draws, ticks of the machines, and crashes.
#![tactic(auto)]

mod datagrams;
mod draws;
mod generated;
mod laws;
mod lines;

pub use draws::{Draw, Procedure};
pub use generated::Generated;
pub use laws::in_grammar;
