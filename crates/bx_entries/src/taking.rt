//! Entries that are taken out of directories.

ghost use Rattle.std.specs.Prelude.{◌≡◌, ◌+◌, ◌≤◌, length, IfOk, IsSome};
ghost use Rattle.bx_changes.specs.Procedures.{Exclusive, File, IsHeldDraft, IsInode, NeedsOn, NeverInner, Tree, Truth, block_at};
ghost use Rattle.bx_directory_reads.specs.bx_dirs.specs.Changes.{OnTakePath};
ghost use Rattle.bx_entries.specs.Taking.{IsEntryOf, TakesEntry, TakesOutAt, inode_without, links_left as left};

use crate::stops::stop_of;
use bx_directory_reads::dirs::take;
use bx_inodes::{Stop, put_inode};
use bx_layout::Inode;
use bx_records::Draft;
use bx_views::View;
use std::alloc::Global;

/// A file by its handle and its inode.
#[derive(Drop)]
pub struct Known {
    /// The number of its handle.
    pub handle: u64,
    /// Its inode.
    pub inode: Inode,
}

/// Takes the entry with a name and its number out of a directory, by its inode, which is changed now, in seconds and microseconds: a draft with
/// what does so put into it. The directory has a link less where the entry counts as one, which is so of a directory's.
///
/// `Need` names a block of the volume that isn't held exclusively, and is on the path of the two changes. The status is `STALE` where what is
/// held is no directory with that entry: of an entry that is there it never comes.
pub fn take_entry<V: View>(
    alloc: Global,
    draft: Draft,
    view: &V,
    areas: u16,
    directory: Known,
    number: u32,
    name: &[u8],
    counts: bool,
    now: (u32, u32),
) -> Result<Draft, Stop>
    requires inode { IsInode directory.inode }
    requires few { length draft ≤ 12 }
    ensures step { (truth : Truth) (tree : Tree) (file : File) → IsEntryOf areas (V.held view.now) (V.hints view.now) truth draft tree directory.handle directory.inode file number name.now
        → TakesEntry areas truth draft tree directory.handle file name.now counts now result }
    ensures ends { IfOk result (λ new. TakesOutAt (V.held view.now) (V.hints view.now) draft new directory.handle directory.inode number name.now counts now) }
    ensures need { NeedsOn areas (V.held view.now) (OnTakePath (V.held view.now) (V.hints view.now) draft directory.inode.tree number name.now) result }
    ensures inner { NeverInner result }
    ensures held { IsHeldDraft (V.held view.now) draft → IsSome (V.held view.now (block_at directory.handle) Exclusive) → IfOk result (IsHeldDraft (V.held view.now)) }
    ensures few { IfOk result (λ new. length new ≤ length draft + 3) }
{
    let mut draft = draft;
    let Known { handle, inode } = directory;
    match take(alloc, &mut draft, view, inode.tree, number, name) {
        Err(error) => return Err(stop_of(areas, error)),
        Ok(()) => {}
    }
    let changed = without_entry(inode, counts, now);
    match put_inode(alloc, &mut draft, handle, &changed) {
        Err(_) => Err(Stop::OutOfMemory),
        Ok(()) => Ok(draft),
    }
}

/// A directory's inode without an entry.
fn without_entry(inode: Inode, counts: bool, now: (u32, u32)) -> Inode
    ensures { result ≡ inode_without counts now inode }
{
    Inode {
        nlink: links_left(counts, inode.nlink),
        mtime: now,
        ctime: now,
        ..inode
    }
}

/// How many links a directory has left that had so many.
fn links_left(counts: bool, nlink: u32) -> u32
    ensures { result ≡ left counts nlink }
{
    if counts {
        nlink.saturating_sub(1)
    } else {
        nlink
    }
}
