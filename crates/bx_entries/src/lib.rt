//! Entries of directories, over views: how one is put in, once room is found for it, and how one is taken out with the
//! file that it names, by REMOVE and RMDIR.
#![tactic(auto)]

mod entering;
mod finding;
mod removals;
mod removing;
mod rooms;
mod stops;
mod taking;
mod unlinking;

pub use entering::enter;
pub use finding::{Removable, directory_for, entry_for};
pub use removals::remove;
pub use removing::remove_entry;
pub use rooms::room_for;
pub use taking::{Known, take_entry};
pub use unlinking::unlink;

/// What the crates above use of `bx_directory_reads`.
pub mod directory_reads {
    pub use bx_directory_reads::{entry_behind, lookup, readdir};
}

/// What the crates above use of `bx_dirs`.
pub mod dirs {
    pub use bx_directory_reads::dirs::lookup;
}

/// What the crates above use of `bx_making`.
pub mod making {
    pub use bx_making::{make, make_link};
}

/// What the crates above use of `bx_ready`.
pub mod ready {
    pub use bx_ready::{Target, ready};
}
