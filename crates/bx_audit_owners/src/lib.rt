//! The file tree of a volume, read off its blocks: on a walk from the root, and then slot by slot. Each chunk has one owner.
#![tactic(auto)]

mod claimed;
mod dead;
mod found;
mod holders;
mod tree;
mod walks;
mod words;

pub use tree::tree_on;
pub use walks::{Walked, walk};
pub use words::check_words;
