//! What inodes have, read off the chunks of a volume: the chunks of an inode's tree, or that it is dead, and then its file.
#![tactic(auto)]

mod bodies;
mod claims;
mod contents;
mod files;
mod outlines;
mod pieces;

pub use claims::Claim;
pub use files::{check_file, file_of, outline_of};
pub use outlines::{FileOutline, Outline};
