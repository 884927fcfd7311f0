//! What a client is answered.

use bx_tree_files::base::{List, Raw, Words};

/// An entry of a directory as READDIR lists it (RFC 1094, section 2.2.17).
#[derive(Drop)]
pub struct Listed {
    /// The number of the file that it names.
    pub fileid: u32,
    /// Its name.
    pub name: Raw,
    /// The cookie from which the next entry is listed.
    pub cookie: u32,
}

/// Entries in the order in which they are listed.
pub type ListedList = List<Listed>;

/// A reply: the result of a procedure. A variant without a status stands for `NFS_OK`, or for a result that has no
/// status.
#[derive(Drop)]
pub enum Reply {
    /// The call was refused as a message (RFC 5531, section 9): the number of the refusal, and the call's program.
    Refused(u32, u32),
    /// A result that is a status alone (RFC 1094, section 2.3.1).
    Status(u32),
    /// A result without content.
    Empty,
    /// The 17 words of a file's attributes (RFC 1094, section 2.3.5).
    Attributes(Words),
    /// A file handle's 32 bytes, and the file's attributes.
    Handle(Raw, Words),
    /// A link's path.
    Path(Raw),
    /// A file's attributes, and bytes of its content.
    Bytes(Words, Raw),
    /// Entries of a directory, and 1 where they end with the last one, else 0.
    List(ListedList, u32),
    /// The five words of STATFS: the bytes of a transfer, the bytes of a block, and the blocks in all, free, and free
    /// for the caller.
    Space(Words),
    /// The 32 bytes of the root's file handle (RFC 1094, appendix A).
    Mounted(Raw),
    /// The list of mounts, which is always empty.
    Mounts,
    /// The list of exports: `/` alone, for everybody.
    Exports,
}
