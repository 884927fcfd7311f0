//! Inodes over views: what stops an attempt of a call, the inode of a file's handle, an inode that is written anew, and
//! hints that fit all page trees of a volume.
#![tactic(auto)]

mod heads;
mod inodes;
mod laws;
mod stop;
mod writing;

pub use heads::{file_with, head_of};
pub use inodes::inode_at;
pub use laws::{a_file_has_pages, hints_fit_later, hints_still_fit, one_tree_has_the_hints};
pub use stop::Stop;
pub use writing::put_inode;

/// What the crates above use of `bx_blink`.
pub mod blink {
    pub use bx_blink::{BlinkError, find, handle_in};
}
