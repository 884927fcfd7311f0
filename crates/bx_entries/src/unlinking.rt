//! Files that lose a name.

ghost use Rattle.std.specs.Prelude.{◌≡◌, ◌<◌, ◌≤◌, ℕ, length, OnErr, OnOk, IsSome};
ghost use Rattle.bx_changes.specs.Procedures.{Exclusive, File, IsHeldDraft, IsInode, NeedsOn, NeverInner, Tree, Truth, block_at, parts_of};
ghost use Rattle.bx_entries.specs.Removing.{OnUnlinking};
ghost use Rattle.bx_entries.specs.Unlinking.{IsFileOf, UnlinksIn};

use crate::stops::stop_of_chunks;
use bx_inodes::{Stop, put_inode};
use bx_layout::Inode;
use bx_making::bury;
use bx_records::Draft;
use bx_tree_files::DIRECTORY;
use bx_views::View;
use std::alloc::Global;

/// Takes a name from the file with a handle, by its inode, which is changed now, in seconds and microseconds; the file dies with its last
/// name. A directory, which has one name, dies; it has no entries.
///
/// `Need` names the own block of the file's area, where the file dies and that isn't held exclusively. The status is `STALE` where the handle names no file: of a file that is
/// there it never comes. On an error the draft is as it was.
pub fn unlink<V: View>(
    alloc: Global,
    draft: &mut Draft,
    view: &V,
    handle: u64,
    inode: Inode,
    now: (u32, u32),
) -> Result<(), Stop>
    requires inode { IsInode inode }
    requires few { length draft.old ≤ 12 }
    ensures unchanged { OnErr result (draft.new ≡ draft.old) }
    ensures step { (areas : ℕ) (truth : Truth) (tree : Tree) (file : File) → IsFileOf areas (V.held view.now) truth draft.old tree handle inode file
        → UnlinksIn areas truth draft.old draft.new tree handle file now result }
    ensures need { (areas : ℕ) → (parts_of handle).area < areas → NeedsOn areas (V.held view.now) (OnUnlinking handle inode) result }
    ensures inner { NeverInner result }
    ensures held { IsHeldDraft (V.held view.now) draft.old → IsSome (V.held view.now (block_at handle) Exclusive) → OnOk result (IsHeldDraft (V.held view.now) draft.new) }
{
    if inode.kind == DIRECTORY || inode.nlink <= 1 {
        match bury(alloc, draft, view, handle, inode) {
            Err(error) => return Err(stop_of_chunks(error)),
            Ok(()) => return Ok(()),
        }
    }
    let changed = Inode {
        nlink: inode.nlink - 1,
        ctime: now,
        ..inode
    };
    match put_inode(alloc, draft, handle, &changed) {
        Err(_) => Err(Stop::OutOfMemory),
        Ok(()) => Ok(()),
    }
}
