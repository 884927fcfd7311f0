//! What a replica answers to a message, and what it holds then. No disk is asked.
#![tactic(auto)]

mod laws;
mod replies;
mod steps;

pub use laws::messages_lead_on;
pub use replies::{Reply, tell};
pub use steps::{Step, catch_up, first_held, handle};
