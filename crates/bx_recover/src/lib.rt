//! The recovery of the log of a session that is dead, as a machine over data: it asks for what is to be read and written, and is told what came and what is
//! done. It has no disk and no store. What it does at each stage is one exact relation.
#![tactic(auto)]

mod bodies;
mod closing;
mod gates;
mod homes;
mod laws;
mod moves;
mod recovery;
mod stage;

pub use laws::{
    a_step_is_one, what_a_recovery_did, what_a_recovery_waits_for, what_comes_before_a_write,
    what_goes_home_is_the_logs, what_was_read_is_the_log,
};
pub use moves::Move;
pub use recovery::Recovery;
pub use stage::Stage;
