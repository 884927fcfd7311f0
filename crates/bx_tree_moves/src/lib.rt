//! The procedure that moves a file of a tree: RENAME.
#![tactic(auto)]

mod move_errors;
mod renaming;

pub use renaming::rename;
