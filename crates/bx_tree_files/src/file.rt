//! Files of the tree.

use crate::names::NameList;
use bx_tree_parts::Content;
use bx_tree_parts::base::Raw;

/// An entry of a directory.
#[derive(Drop)]
pub struct Name {
    /// The entry's number; a directory numbers its entries from 3 and never uses a number twice.
    pub number: u32,
    /// The name's bytes.
    pub name: Raw,
    /// The handle of the file that it names.
    pub handle: u64,
}

/// What a file contains.
#[derive(Drop)]
pub enum Body {
    /// A regular file's bytes.
    Bytes(Content),
    /// A symbolic link's path.
    Path(Raw),
    /// A directory's parent, the number that its next entry gets, and its entries.
    Names(u64, u32, NameList),
}

/// The type's number of a regular file (RFC 1094, section 2.3.2).
pub const REGULAR: u32 = 1;

/// The type's number of a directory.
pub const DIRECTORY: u32 = 2;

/// The type's number of a symbolic link.
pub const LINK: u32 = 5;

/// A file of the tree.
#[derive(Drop)]
pub struct File {
    /// Area in 16 bits, slot in 16, generation in 32.
    pub handle: u64,
    /// 1 for a regular file, 2 for a directory, 5 for a symbolic link (RFC 1094, section 2.3.2).
    pub kind: u32,
    /// The permissions: 12 bits.
    pub mode: u32,
    /// How many names it has; of a directory, 2 and one for each of its directories.
    pub nlink: u32,
    /// The owner.
    pub uid: u32,
    /// The group.
    pub gid: u32,
    /// When it was read last, in seconds and microseconds.
    pub atime: (u32, u32),
    /// When its content was changed last.
    pub mtime: (u32, u32),
    /// When it was changed last.
    pub ctime: (u32, u32),
    /// What it contains.
    pub body: Body,
}
