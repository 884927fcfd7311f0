//! Inodes.

ghost use Rattle.std.specs.Prelude.{◌≡◌, ◌+◌, ◌^◌, ◌<◌, ◌≤◌, IfOk, IfSome, IfNone, length};
ghost use Rattle.bx_base.specs.Reading.{Gives};
ghost use Rattle.bx_base.specs.Writing.{Writes, padded};
ghost use Rattle.bx_layout.specs.Inodes.{IsInode, SpellsInode, inode_text, owner_text, size_text, time_text, tree_text};
ghost use Rattle.bx_layout.specs.InodeReading.{inode_at};
ghost use Rattle.bx_layout.specs.declared.inode.Inode.{Inode};

use crate::parts::{owner_of, sizes_of, tree_of};
use bx_base::{OutOfMemory, Raw, ReadError, before_zeros, clear_from, put, put_u32, put_u64};
use bx_places::PAYLOAD;
use std::alloc::Global;

/// What is kept of a file beside what it contains. Times are seconds and microseconds.
#[derive(Drop)]
pub struct Inode {
    /// 1 a regular file, 2 a directory, 5 a link; 0 where the file is dead.
    pub kind: u32,
    /// The mode's 12 bits.
    pub mode: u32,
    /// How many names it has.
    pub nlink: u32,
    /// The owner.
    pub uid: u32,
    /// The group.
    pub gid: u32,
    /// The size in bytes.
    pub size: u64,
    /// Where the bytes end that may be old: those from the size up to here are cleared before they come below the size.
    pub tail: u64,
    /// When it was last read.
    pub atime: (u32, u32),
    /// When it was last written.
    pub mtime: (u32, u32),
    /// When its inode last changed.
    pub ctime: (u32, u32),
    /// The number of the handle of the root page of its tree.
    pub tree: u64,
    /// The number of the handle of a directory's parent.
    pub parent: u64,
    /// A directory's next entry number.
    pub next: u32,
    /// A link's path.
    pub path: Raw,
}

impl Inode {
    /// The inode that a payload is; `None` exactly where the bytes are no inode's.
    pub fn read(alloc: Global, payload: &[u8]) -> Result<Option<Inode>, OutOfMemory>
        ensures some { IfOk result (λ found. IfSome found (λ inode. SpellsInode inode payload.now)) }
        ensures none { IfOk result (λ found. IfNone found ((inode : Inode) → SpellsInode inode payload.now → ⊥)) }
    {
        if payload.len() != PAYLOAD {
            return Ok(None);
        }
        before_zeros(inode_of(alloc, payload))
    }

    /// Writes the inode into the 4096 bytes of a payload.
    pub fn write(&self, into: &mut [u8])
        requires inode { IsInode self.now }
        requires size { length into.old ≡ 4096 }
        ensures { into.new ≡ padded 4096 (inode_text self.now) }
    {
        let at = self.put_owner(into);
        let at = self.put_sizes(into, at);
        let at = self.put_tree(into, at);
        clear_from(into, at);
    }

    /// Writes the type, the mode, the links, the owner and the group at the front, with four zeros behind them.
    fn put_owner(&self, into: &mut [u8]) -> usize
        requires { 24 ≤ length into.old }
        ensures { Writes into.old into.new 0 result (owner_text self.now) }
    {
        let at = put_u32(into, 0, self.kind);
        let at = put_u32(into, at, self.mode);
        let at = put_u32(into, at, self.nlink);
        let at = put_u32(into, at, self.uid);
        let at = put_u32(into, at, self.gid);
        put_u32(into, at, 0)
    }

    /// Writes the size, the tail and the times at a place.
    fn put_sizes(&self, into: &mut [u8], at: usize) -> usize
        requires { at + 40 ≤ length into.old }
        ensures { Writes into.old into.new at result (size_text self.now) }
    {
        let at = put_u64(into, at, self.size);
        let at = put_u64(into, at, self.tail);
        let at = put_time(into, at, self.atime);
        let at = put_time(into, at, self.mtime);
        put_time(into, at, self.ctime)
    }

    /// Writes the tree, the parent, the next entry number and the path at a place.
    fn put_tree(&self, into: &mut [u8], at: usize) -> usize
        requires room { at + 24 + length self.now.path ≤ length into.old }
        requires path { length self.now.path < 2 ^ 32 }
        ensures { Writes into.old into.new at result (tree_text self.now) }
    {
        let at = put_u64(into, at, self.tree);
        let at = put_u64(into, at, self.parent);
        let at = put_u32(into, at, self.next);
        let path = self.path.bytes();
        let at = put_u32(into, at, path.len() as u32);
        put(into, at, path)
    }
}

/// Writes the seconds and the microseconds of a time at a place.
fn put_time(into: &mut [u8], at: usize, time: (u32, u32)) -> usize
    requires { at + 8 ≤ length into.old }
    ensures { Writes into.old into.new at result (time_text time) }
{
    let at = put_u32(into, at, time.0);
    put_u32(into, at, time.1)
}

/// The inode at the front, and the bytes behind it.
#[tactic(auto, unfolding(crate::specs::InodeReading::inode_at))]
fn inode_of(alloc: Global, bytes: &[u8]) -> Result<(Inode, &[u8]), ReadError>
    ensures { Gives (λ x. (x.0, x.1.now)) result (inode_at bytes.now) }
{
    let (owner, rest) = owner_of(bytes)?;
    let (sizes, rest) = sizes_of(rest)?;
    let (tree, rest) = tree_of(alloc, rest)?;
    let inode = Inode {
        kind: owner.kind,
        mode: owner.mode,
        nlink: owner.nlink,
        uid: owner.uid,
        gid: owner.gid,
        size: sizes.size,
        tail: sizes.tail,
        atime: sizes.atime,
        mtime: sizes.mtime,
        ctime: sizes.ctime,
        tree: tree.tree,
        parent: tree.parent,
        next: tree.next,
        path: tree.path,
    };
    Ok((inode, rest))
}
