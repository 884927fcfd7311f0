//! The attributes that a client sets, by a file's inode.

ghost use Rattle.std.specs.Prelude.{◌≡◌, IfOk};
ghost use Rattle.bx_reads.specs.bx_inodes.specs.Heads.{head_of as head_by};
ghost use Rattle.bx_layout.specs.Inodes.{IsInode};
ghost use Rattle.bx_model.specs.Writing.{is_forbidden as is_forbidden_to};
ghost use Rattle.bx_tree_files.specs.Changes.{sets_field as sets_a_field};
ghost use Rattle.bx_changes.specs.Given.{with_given as with_those_given};

use bx_base::OutOfMemory;
use bx_call_parts::forbids;
use bx_layout::Inode;
use bx_model::{Call, Sattr};
use bx_reads::inodes::head_of;
use bx_tree_files::{MODES, given_or, is_given, time_or};
use std::alloc::Global;

/// Whether any attribute is given.
pub fn sets_field(sattr: &Sattr) -> bool
    ensures { result ≡ sets_a_field sattr.now }
{
    is_given(sattr.mode)
        || is_given(sattr.uid)
        || is_given(sattr.gid)
        || is_given(sattr.size)
        || is_given(sattr.atime.0)
        || is_given(sattr.mtime.0)
}

/// The inode with the attributes that are given, but for the size. `now`, in seconds and microseconds, is when it changes.
pub fn with_given(inode: Inode, sattr: &Sattr, now: (u32, u32)) -> Inode
    requires { IsInode inode }
    ensures is { result ≡ with_those_given now sattr.now inode }
    ensures inode { IsInode result }
{
    let written = if is_given(sattr.size) {
        now
    } else {
        inode.mtime
    };
    Inode {
        mode: given_or(sattr.mode, sattr.mode % MODES, inode.mode),
        uid: given_or(sattr.uid, sattr.uid, inode.uid),
        gid: given_or(sattr.gid, sattr.gid, inode.gid),
        atime: time_or(sattr.atime, inode.atime),
        mtime: time_or(sattr.mtime, written),
        ctime: if sets_field(sattr) { now } else { inode.ctime },
        ..inode
    }
}

/// Whether a caller wants to set something that the caller may not set of the file with a handle, by the file's inode: the mode or a
/// time, the owner, or the group.
pub fn is_forbidden(
    alloc: Global,
    call: &Call,
    handle: u64,
    inode: &Inode,
    sattr: &Sattr,
) -> Result<bool, OutOfMemory>
    ensures { IfOk result (λ forbidden. forbidden ≡ is_forbidden_to call.now (head_by handle inode.now) sattr.now) }
{
    let head = head_of(alloc, handle, inode)?;
    Ok(forbids(call, &head, sattr))
}
