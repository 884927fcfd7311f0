//! Files that are made.

ghost use Rattle.std.specs.Prelude.{◌≡◌, ◌≤◌, ℕ, OnOk, OnErr};
ghost use Rattle.bx_tree_files.specs.declared.file.Body.{Body};
ghost use Rattle.bx_truth.specs.Making.{IsEmptyBody};
ghost use Rattle.bx_making.specs.Common.{IsHeldDraft, IsInode, IsTruth, NeedsFairly, StandsFor, Tree, Truth, with_draft};
ghost use Rattle.bx_making.specs.Made.{MakesIn};
ghost use Rattle.bx_making.specs.Making.{FillsAt, MakesAt};

use bx_chunks::{ChunkError, allocate, copy_of};
use bx_inodes::put_inode;
use bx_layout::Inode;
use bx_leaves::blink::BlinkError;
use bx_leaves::put_page;
use bx_page::Page;
use bx_places::MOST_BLOCKS;
use bx_records::Draft;
use bx_views::View;
use std::alloc::Global;

/// Makes an empty file: it takes two slots near an area, one for its inode, which is this one but for its
/// root, and one for the page of its tree, and gives the number of the file's handle.
///
/// `Need` names a block that is to be held exclusively, as it does of `allocate`. `Full` tells how many slots are free in the view, and `Crowded`
/// that the draft has too many blocks. On an error the draft is as it was.
pub fn make<V: View>(
    alloc: Global,
    draft: &mut Draft,
    view: &V,
    inode: Inode,
    near: u16,
    areas: u16,
) -> Result<u64, ChunkError>
    requires { IsInode inode }
    ensures unchanged { OnErr result (draft.new ≡ draft.old) }
    ensures at { MakesAt (V.held view.now) draft.old draft.new inode near areas result }
    ensures tree { (truth : Truth) (tree : Tree) (body : Body) → areas ≤ 64 → IsTruth (V.held view.now) truth → StandsFor areas (with_draft truth draft.old) tree → IsEmptyBody inode body
        → MakesIn areas truth draft.old draft.new tree inode body result }
    ensures fair { NeedsFairly areas (V.held view.now) result }
    ensures held { IsHeldDraft (V.held view.now) draft.old → OnOk result (IsHeldDraft (V.held view.now) draft.new) }
{
    make_file(alloc, draft, view, inode, (near, areas))
}

/// The same, by what is held.
fn make_file<V: View>(
    alloc: Global,
    draft: &mut Draft,
    view: &V,
    inode: Inode,
    near: (u16, u16),
) -> Result<u64, ChunkError>
    requires { IsInode inode }
    ensures unchanged { OnErr result (draft.new ≡ draft.old) }
    ensures at { MakesAt (V.held view.now) draft.old draft.new inode near.0 near.1 result }
{
    // for the proof: a draft has at most sixteen blocks, each once
    let _blocks = draft.blocks();
    let mut next = copy_of(alloc, draft)?;
    let handle = match allocate(alloc, &mut next, view, near.0, near.1) {
        Err(error) => return Err(error),
        Ok(handle) => handle,
    };
    let page = match allocate(alloc, &mut next, view, near.0, near.1) {
        Err(error) => return Err(error),
        Ok(page) => page,
    };
    match fill(alloc, &mut next, handle, page, inode) {
        Err(error) => Err(error),
        Ok(()) => {
            *draft = next;
            Ok(handle)
        }
    }
}

/// Puts a page without entries, and an inode that has it as its root.
fn fill(
    alloc: Global,
    draft: &mut Draft,
    handle: u64,
    page: u64,
    inode: Inode,
) -> Result<(), ChunkError>
    requires { IsInode inode }
    ensures { FillsAt draft.old draft.new handle page inode result }
{
    match put_page(alloc, draft, page, &Page::new(alloc, 0)) {
        Err(BlinkError::Crowded) => return Err(ChunkError::Crowded),
        Err(_) => return Err(ChunkError::OutOfMemory),
        Ok(()) => {}
    }
    if draft.blocks().len() >= MOST_BLOCKS {
        return Err(ChunkError::Crowded);
    }
    let inode = Inode {
        tree: page,
        ..inode
    };
    put_inode(alloc, draft, handle, &inode)?;
    Ok(())
}
