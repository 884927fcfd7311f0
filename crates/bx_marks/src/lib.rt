//! The marks of dead inodes over views: set and cleared, and the first that is set in an area.
#![tactic(auto)]

mod marking;

pub use marking::{first_dead, mark_dead};
