//! Files that get one more name, over views: LINK.
#![tactic(auto)]

mod linking;
mod places;
mod searching;
mod testing;

pub use linking::link;
pub use searching::find_entry;

/// What the crates above use of `bx_directory_reads`.
pub mod directory_reads {
    pub use bx_entries::directory_reads::entry_behind;
}

/// What the crates above use of `bx_entries`.
pub mod entries {
    pub use bx_entries::{Known, entry_for, room_for};
}
