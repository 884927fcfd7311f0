//! Links that are made.

ghost use Rattle.std.specs.Prelude.{◌≡◌, ◌≤◌, OnOk, OnErr};
ghost use Rattle.bx_tree_files.specs.declared.file.Body.TheVariants.{Path};
ghost use Rattle.bx_making.specs.Common.{IsHeldDraft, IsInode, IsTruth, NeedsFairly, StandsFor, Tree, Truth, with_draft};
ghost use Rattle.bx_making.specs.Links.{LinksAt};
ghost use Rattle.bx_making.specs.Made.{MakesIn};

use bx_chunks::{ChunkError, allocate, copy_of};
use bx_inodes::put_inode;
use bx_layout::Inode;
use bx_places::MOST_BLOCKS;
use bx_records::Draft;
use bx_views::View;
use std::alloc::Global;

/// Makes a link: it takes a slot near an area for this inode, and gives the number of the link's handle.
///
/// `Need`, `Full` and `Crowded` come as they do of `make`. On an error the draft is as it was.
pub fn make_link<V: View>(
    alloc: Global,
    draft: &mut Draft,
    view: &V,
    inode: &Inode,
    near: u16,
    areas: u16,
) -> Result<u64, ChunkError>
    requires { IsInode inode.now }
    ensures unchanged { OnErr result (draft.new ≡ draft.old) }
    ensures at { LinksAt (V.held view.now) draft.old draft.new inode.now near areas result }
    ensures tree { (truth : Truth) (tree : Tree) → areas ≤ 64 → IsTruth (V.held view.now) truth → StandsFor areas (with_draft truth draft.old) tree → inode.now.kind ≡ 5 → inode.now.tree ≡ 0
        → MakesIn areas truth draft.old draft.new tree inode.now (Path inode.now.path) result }
    ensures fair { NeedsFairly areas (V.held view.now) result }
    ensures held { IsHeldDraft (V.held view.now) draft.old → OnOk result (IsHeldDraft (V.held view.now) draft.new) }
{
    link_seen(alloc, draft, view, inode, (near, areas))
}

/// The same, by what is held.
fn link_seen<V: View>(
    alloc: Global,
    draft: &mut Draft,
    view: &V,
    inode: &Inode,
    near: (u16, u16),
) -> Result<u64, ChunkError>
    requires { IsInode inode.now }
    ensures unchanged { OnErr result (draft.new ≡ draft.old) }
    ensures at { LinksAt (V.held view.now) draft.old draft.new inode.now near.0 near.1 result }
{
    // for the proof: a draft has at most sixteen blocks, each once
    let _blocks = draft.blocks();
    let mut next = copy_of(alloc, draft)?;
    let handle = match allocate(alloc, &mut next, view, near.0, near.1) {
        Err(error) => return Err(error),
        Ok(handle) => handle,
    };
    if next.blocks().len() >= MOST_BLOCKS {
        return Err(ChunkError::Crowded);
    }
    put_inode(alloc, &mut next, handle, inode)?;
    *draft = next;
    Ok(handle)
}
