//! The procedures that read directories, over views.
#![tactic(auto)]

mod entries;
mod filling;
mod listing;
mod lookups;
mod opening;

pub use entries::entry_behind;
pub use listing::readdir;
pub use lookups::lookup;

/// What the crates above use of `bx_dirs`.
pub mod dirs {
    pub use bx_dirs::{add, lookup, take};
}
