//! The inodes of new files.

ghost use Rattle.std.specs.Prelude.{◌≡◌, ◌<◌, ◌≤◌, ◌+◌, ◌&&◌, ◌^◌, length, if◌then◌else◌};
ghost use Rattle.bx_changes.specs.Procedures.{IsInode};
ghost use Rattle.bx_layout.specs.Inodes.{IsKind};
ghost use Rattle.bx_tree_files.specs.Times.{is_given as is_given_word};
ghost use Rattle.bx_creating.specs.Inodes.{directory_inode as directory_inode_of, file_inode as file_inode_of, link_inode as link_inode_of, new_inode as new_inode_of};

use bx_base::Raw;
use bx_layout::Inode;
use bx_model::{Call, Sattr};
use bx_tree_files::{DIRECTORY, LINK, MODES, REGULAR, given_or, is_given, time_or};
use std::alloc::Global;

/// The number of a directory's first entry.
const FIRST_NUMBER: u32 = 3;

/// The mode of a new directory whose mode isn't given.
const DIRECTORY_MODE: u32 = 0o755;

/// The mode of a new link whose mode isn't given.
const LINK_MODE: u32 = 0o777;

/// The mode of a new regular file whose mode isn't given.
const FILE_MODE: u32 = 0o644;

/// The inode of a new directory in one with a handle.
pub(crate) fn directory_inode(
    alloc: Global,
    call: &Call,
    sattr: &Sattr,
    now: (u32, u32),
    parent: u64,
) -> Inode
    ensures is { result ≡ directory_inode_of call.now sattr.now now parent }
    ensures inode { IsInode result }
{
    let inode = new_inode(alloc, call, sattr, now, DIRECTORY_MODE, DIRECTORY);
    Inode {
        parent,
        next: FIRST_NUMBER,
        ..inode
    }
}

/// The inode of a new link with a path.
pub(crate) fn link_inode(
    alloc: Global,
    call: &Call,
    sattr: &Sattr,
    now: (u32, u32),
    path: Raw,
) -> Inode
    requires { 88 + length path ≤ 4096 }
    ensures is { result ≡ link_inode_of call.now sattr.now now path }
    ensures inode { IsInode result }
{
    let inode = new_inode(alloc, call, sattr, now, LINK_MODE, LINK);
    Inode { path, ..inode }
}

/// The inode of a new regular file, of zeros where a size is given.
pub(crate) fn file_inode(alloc: Global, call: &Call, sattr: &Sattr, now: (u32, u32)) -> Inode
    ensures is { result ≡ file_inode_of call.now sattr.now now }
    ensures inode { IsInode result }
{
    let inode = new_inode(alloc, call, sattr, now, FILE_MODE, REGULAR);
    Inode {
        size: u64::from(given_or(sattr.size, sattr.size, 0)),
        ..inode
    }
}

/// The inode of a new file of a type, whose mode is this where none is given.
fn new_inode(
    alloc: Global,
    call: &Call,
    sattr: &Sattr,
    now: (u32, u32),
    mode: u32,
    kind: u32,
) -> Inode
    requires kind { IsKind kind }
    requires mode { mode < 2 ^ 12 }
    ensures is { result ≡ new_inode_of call.now sattr.now now mode kind }
    ensures inode { IsInode result }
{
    let root = call.uid == 0;
    Inode {
        kind,
        mode: given_or(sattr.mode, sattr.mode % MODES, mode),
        nlink: if kind == DIRECTORY { 2 } else { 1 },
        uid: owner(root, sattr.uid, call.uid),
        gid: owner(root, sattr.gid, call.gid),
        size: 0,
        tail: 0,
        atime: time_or(sattr.atime, now),
        mtime: time_or(sattr.mtime, now),
        ctime: now,
        tree: 0,
        parent: 0,
        next: 0,
        path: Raw::from(Vec::new(alloc)),
    }
}

/// The owner or the group of a new file: the caller's, but for the user 0 the one that is given.
fn owner(root: bool, given: u32, caller: u32) -> u32
    ensures { result ≡ (if root && is_given_word given then given else caller) }
{
    if root && is_given(given) {
        given
    } else {
        caller
    }
}
