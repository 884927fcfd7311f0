//! Files that are made with the entries that name them, over views: MKDIR, SYMLINK and CREATE.
#![tactic(auto)]

mod creating;
mod directories;
mod existing;
mod files;
mod finding;
mod inodes;
mod links;
mod placing;
mod searching;
mod telling;

pub use creating::create;
pub use directories::mkdir;
pub use links::symlink;

/// What the crates above use of `bx_directory_reads`.
pub mod directory_reads {
    pub use bx_entries::directory_reads::{lookup, readdir};
}

/// What the crates above use of `bx_entries`.
pub mod entries {
    pub use bx_entries::{Removable, remove};
}

/// What the crates above use of `bx_sizes`.
pub mod sizes {
    pub use bx_sizes::setattr;
}
