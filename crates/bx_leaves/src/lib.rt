//! Entries of B-link trees, put in and taken out.
#![tactic(auto)]

mod entries;
mod leaf;
mod pages;

pub use entries::{insert, remove};
pub use leaf::leaf_of;
pub use pages::put_page;

/// What the crates above use of `bx_blink`.
pub mod blink {
    pub use bx_blink::{BlinkError, find, leaf_from, next};
}
