//! What a client asks for.

use bx_tree_files::Sattr;
use bx_tree_files::base::{Raw, Words};

/// The arguments of a procedure, in their order (RFC 1094, section 2.2 and appendix A). A file handle is given as its 32
/// bytes.
#[derive(Drop)]
pub enum Args {
    /// Those of a call that is refused as a message (RFC 5531, section 9), with the number of the refusal.
    Refused(u32),
    /// None.
    Nothing,
    /// A file handle.
    Handle(Raw),
    /// A file handle and the attributes to set.
    Set(Raw, Sattr),
    /// A directory's file handle and a name in it.
    Name(Raw, Raw),
    /// A file handle, an offset, a count, and a total count that means nothing.
    Read(Raw, u32, u32, u32),
    /// A file handle, an offset that means nothing, the offset, a total count that means nothing, and the data.
    Write(Raw, u32, u32, u32, Raw),
    /// A directory's file handle, a name, and the attributes of the file to make.
    Make(Raw, Raw, Sattr),
    /// Two directories' file handles, each with a name: from, and to.
    Rename(Raw, Raw, Raw, Raw),
    /// A file handle, and a directory's file handle with a name.
    Link(Raw, Raw, Raw),
    /// A directory's file handle, a name, the link's path, and the link's attributes.
    Symlink(Raw, Raw, Raw, Sattr),
    /// A directory's file handle, a cookie, and a count of bytes.
    List(Raw, u32, u32),
    /// A path to mount.
    Path(Raw),
}

/// A call (RFC 5531, section 9), as its header and arguments were read. One that is refused as a message has procedure,
/// uid and gid 0 and no gids.
#[derive(Drop)]
pub struct Call {
    /// The program's number: 100003 for NFS, 100005 for MOUNT. Of a refused call, the program whose version was asked
    /// for, else 0.
    pub program: u32,
    /// The procedure's number (RFC 1094, section 2.2 and appendix A).
    pub procedure: u32,
    /// The caller's user number.
    pub uid: u32,
    /// The caller's group number.
    pub gid: u32,
    /// The caller's further groups.
    pub gids: Words,
    /// The arguments.
    pub args: Args,
}
