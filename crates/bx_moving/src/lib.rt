//! What a move between directories does over a draft, edit by edit, and whether a directory may move: the way up to the root.
#![tactic(auto)]

mod edits;
mod entries;
mod moves;
mod settling;
mod ways;

pub use edits::{Place, leave, lose};
pub use entries::come;
pub use moves::{Moving, Replaced, move_file};
pub use settling::settle;
pub use ways::way_error;
