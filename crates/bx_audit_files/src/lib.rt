//! Inodes and what they have, read off the chunks of a volume.
#![tactic(auto)]

mod fields;
mod inodes;
mod lists;
mod names;

pub use inodes::{block_at, inode_at};
pub use lists::entries_of;
