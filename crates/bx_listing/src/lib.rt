//! The listing of a file tree.
#![tactic(auto)]

mod listings;

pub use listings::listing;
