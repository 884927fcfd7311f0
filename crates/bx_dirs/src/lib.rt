//! Directories over views: lists of entries, by number and by name, in B-link trees.
#![tactic(auto)]

mod changes;
mod keys;
mod laws;
mod searches;

pub use changes::{add, take};
pub use keys::{key_behind, numbered_in};
pub use laws::a_directory_has_entries;
pub use searches::{after, lookup};

/// What the crates above use of `bx_blink`.
pub mod blink {
    pub use bx_leaves::blink::{BlinkError, leaf_from};
}
