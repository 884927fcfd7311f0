//! Separators put into the parents of the pages of B-link trees.
#![tactic(auto)]

mod parents;
mod posting;
mod separators;

pub use posting::{Posted, post};
pub use separators::may_post;

/// What the crates above use of `bx_splits`.
pub mod splits {
    pub use bx_splits::split;
}
