//! The proposer of a machine: it tries to have changes decided, and learns what was decided.
#![tactic(auto)]

mod letters;
mod names;
mod proposer;

pub use names::{actor_number, is_same_machine};
pub use proposer::Proposer;
