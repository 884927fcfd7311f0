//! Splits of the pages of B-link trees.
#![tactic(auto)]

mod cutting;
mod halves;
mod laws;
mod raising;
mod splitting;
mod steps;

pub use halves::{Halves, put_halves};
pub use laws::{a_full_leaf_may_be_split, a_page_is_cut, a_separator_is_posted, the_root_is_cut};
pub use splitting::split;

/// What the crates above use of `bx_leaves`.
pub mod leaves {
    pub use bx_leaves::put_page;
}
