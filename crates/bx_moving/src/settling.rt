//! Files that have moved.

ghost use Rattle.std.specs.Prelude.{◌≡◌, ◌+◌, ◌<◌, ◌≤◌, ◌==◌, if◌then◌else◌, Some, length, IfOk};
ghost use Rattle.bx_changes.specs.Procedures.{File, IsHeldDraft, NeedsOn, NeverInner, Tree, Truth, file_at};
ghost use Rattle.bx_entries.specs.Finding.{IsOwnBlock};
ghost use Rattle.bx_model.specs.Edits.{changed};
ghost use Rattle.bx_tree_files.specs.Changes.{moved_to};
ghost use Rattle.bx_moving.specs.Edits.{EditsTo, IsEdited, Rests, settled_inode};

use bx_base::Mode;
use bx_inodes::{Stop, inode_at, put_inode};
use bx_layout::Inode;
use bx_records::Draft;
use bx_tree_files::DIRECTORY;
use bx_views::View;
use std::alloc::Global;

/// Tells the file with a handle that it has moved now, in seconds and microseconds, into the directory with another handle, which is a directory's new
/// parent: the draft with that.
///
/// `Need` names the block of the file's inode, exclusively. The status is `STALE` where there is no such file: of one that is there it never comes.
pub fn settle<V: View>(
    alloc: Global,
    draft: Draft,
    view: &V,
    areas: u16,
    handle: u64,
    parent: u64,
    now: (u32, u32),
) -> Result<Draft, Stop>
    requires { length draft < 16 }
    ensures step { (truth : Truth) (tree : Tree) (file : File) → Rests areas (V.held view.now) (V.hints view.now) truth draft tree → file_at tree.files handle ≡ Some file
        → EditsTo areas truth draft (changed tree handle (moved_to now parent)) result }
    ensures need { NeedsOn areas (V.held view.now) (IsOwnBlock handle) result }
    ensures inner { NeverInner result }
    ensures held { IsHeldDraft (V.held view.now) draft → IfOk result (IsHeldDraft (V.held view.now)) }
    ensures edits { IsEdited (V.held view.now) (V.hints view.now) areas draft → IfOk result (IsEdited (V.held view.now) (V.hints view.now) areas) }
    ensures few { IfOk result (λ new. length new ≤ length draft + 1) }
{
    match inode_at(alloc, &draft, view, areas, handle, Mode::Exclusive) {
        Err(stop) => Err(stop),
        Ok(inode) => {
            let mut draft = draft;
            let moved = settled(inode, parent, now);
            match put_inode(alloc, &mut draft, handle, &moved) {
                Err(_) => Err(Stop::OutOfMemory),
                Ok(()) => Ok(draft),
            }
        }
    }
}

/// The inode of a file that moves into the directory with a handle.
fn settled(inode: Inode, parent: u64, now: (u32, u32)) -> Inode
    ensures { result ≡ settled_inode parent now inode }
{
    Inode {
        ctime: now,
        parent: parent_of(inode.kind, inode.parent, parent),
        ..inode
    }
}

/// The parent of a file of a kind that had one, once it moves to another; of a file that is no directory the field stays.
fn parent_of(kind: u32, had: u64, parent: u64) -> u64
    ensures { result ≡ (if kind == 2 then parent else had) }
{
    if kind == DIRECTORY { parent } else { had }
}
