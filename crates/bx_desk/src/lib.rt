//! The calls that wait at a node, and the answers that it keeps for repeats; and what both are by the parts of a run.
#![tactic(auto)]

mod desk;

pub use desk::{Asked, Desk};
