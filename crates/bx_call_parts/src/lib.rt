//! What the calls on a file tree and the engine's procedures share: a directory's page, and what forbids a change of a file.
#![tactic(auto)]

mod errors;
mod pages;

pub use errors::{MOST_BYTES, forbids, resize_error};
pub use pages::{Page, end_word};
