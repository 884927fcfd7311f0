//! A schedule that is made of a number, replayed; and how many lines of each kind its trace has.
#![tactic(auto)]

mod counts;
mod makes;
mod source;

pub use makes::{Plan, make};
pub use source::GeneratedSource;
