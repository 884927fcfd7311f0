//! Files that die.

ghost use Rattle.std.specs.Prelude.{◌≡◌, ◌≢◌, ◌<◌, ℕ, IsSome, OnErr, OnOk, Some};
ghost use Rattle.bx_base.specs.declared.names.Mode.TheVariants.{Exclusive};
ghost use Rattle.bx_places.specs.Handles.{parts_of};
ghost use Rattle.bx_inodes.specs.Inodes.{HoldsInode};
ghost use Rattle.bx_model.specs.Opening.{root_handle};
ghost use Rattle.bx_tree_files.specs.declared.file.File.{File};
ghost use Rattle.bx_tree_files.specs.Files.{file_at};
ghost use Rattle.bx_truth.specs.Chunks.{block_at};
ghost use Rattle.bx_making.specs.Common.{IsHeldDraft, IsInode, IsTruth, NeedsFairly, StandsFor, Tree, Truth, with_draft};
ghost use Rattle.bx_making.specs.Burying.{BuriesAt, BuriesIn, IsBare};

use bx_chunks::{ChunkError, copy_of};
use bx_inodes::put_inode;
use bx_layout::Inode;
use bx_marks::mark_dead;
use bx_places::MOST_BLOCKS;
use bx_records::Draft;
use bx_views::View;
use std::alloc::Global;

/// The kind of the inodes of dead files.
const DEAD: u32 = 0;

/// Makes the file with a handle, whose inode this is, a dead one: its inode becomes a dead file's, which keeps its tree, and its slot is
/// marked, so that all of it is freed later. The file is no directory with entries.
///
/// `Need` names the own block of its area, which is to be held exclusively, and `Stale` comes where the handle isn't in use: of a file that is
/// there it never comes. `Crowded` comes where the draft has too many blocks. On an error the draft is as it was.
pub fn bury<V: View>(
    alloc: Global,
    draft: &mut Draft,
    view: &V,
    handle: u64,
    inode: Inode,
) -> Result<(), ChunkError>
    requires { IsInode inode }
    ensures unchanged { OnErr result (draft.new ≡ draft.old) }
    ensures at { BuriesAt (V.held view.now) draft.old draft.new handle inode result }
    ensures tree { (areas : ℕ) (truth : Truth) (tree : Tree) (file : File) → IsTruth (V.held view.now) truth → StandsFor areas (with_draft truth draft.old) tree
        → HoldsInode areas (with_draft truth draft.old) handle inode → file_at tree.files handle ≡ Some file → IsBare file.body → handle ≢ root_handle
        → BuriesIn areas truth draft.old draft.new tree handle inode result }
    ensures fair { (areas : ℕ) → (parts_of handle).area < areas → NeedsFairly areas (V.held view.now) result }
    ensures held { IsHeldDraft (V.held view.now) draft.old → IsSome (V.held view.now (block_at handle) Exclusive) → OnOk result (IsHeldDraft (V.held view.now) draft.new) }
{
    // for the proof: a draft has at most sixteen blocks, each once
    let _blocks = draft.blocks();
    let mut next = copy_of(alloc, draft)?;
    match mark_dead(alloc, &mut next, view, handle, true) {
        Err(error) => return Err(error),
        Ok(()) => {}
    }
    if next.blocks().len() >= MOST_BLOCKS {
        return Err(ChunkError::Crowded);
    }
    let dead = Inode {
        kind: DEAD,
        ..inode
    };
    put_inode(alloc, &mut next, handle, &dead)?;
    *draft = next;
    Ok(())
}
