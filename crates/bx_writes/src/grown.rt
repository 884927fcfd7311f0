//! The inode of a file that is written.

ghost use Rattle.std.specs.Prelude.{◌≡◌};
ghost use Rattle.bx_changes.specs.Procedures.{IsInode};
ghost use Rattle.bx_writes.specs.Grown.{grown as grown_to};

use bx_layout::Inode;

/// The inode of a file that is written now up to an end: its size and its tail reach as far.
pub(crate) fn grown(inode: Inode, end: u64, now: (u32, u32)) -> Inode
    requires inode { IsInode inode }
    ensures is { result ≡ grown_to end now inode }
    ensures inode { IsInode result }
{
    let size = inode.size.max(end);
    Inode {
        size,
        tail: inode.tail.max(size),
        mtime: now,
        ctime: now,
        ..inode
    }
}
