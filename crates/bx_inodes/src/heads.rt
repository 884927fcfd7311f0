//! What an inode says of its file.

ghost use Rattle.std.specs.Prelude.{◌≡◌, IfOk};
ghost use Rattle.bx_inodes.specs.Heads.{file_with as file_by, head_of as head_by};

use bx_base::{OutOfMemory, Raw};
use bx_blink::tree_files::{Body, File};
use bx_layout::Inode;
use std::alloc::Global;

/// What an inode says of its file, by the number of the file's handle: the file but for its content, for which an empty path stands.
pub fn head_of(alloc: Global, handle: u64, inode: &Inode) -> Result<File, OutOfMemory>
    ensures { IfOk result (λ file. file ≡ head_by handle inode.now) }
{
    let nothing = Raw::of(alloc, &[])?;
    Ok(file_with(handle, inode, Body::Path(nothing)))
}

/// The file with a handle and a body, whose other fields its inode has.
pub fn file_with(handle: u64, inode: &Inode, body: Body) -> File
    ensures { result ≡ file_by handle inode.now body }
{
    File {
        handle,
        kind: inode.kind,
        mode: inode.mode,
        nlink: inode.nlink,
        uid: inode.uid,
        gid: inode.gid,
        atime: inode.atime,
        mtime: inode.mtime,
        ctime: inode.ctime,
        body,
    }
}
