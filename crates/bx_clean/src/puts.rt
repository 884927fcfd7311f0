//! Drafts in which a page or an inode is put, and a slot is freed.

ghost use Rattle.std.specs.Prelude.{[], IfOk};
ghost use Rattle.bx_changes.specs.Procedures.{IsInode};
ghost use Rattle.bx_inodes.specs.Writing.{PutsInode};
ghost use Rattle.bx_leaves.specs.Leaves.{PutsPage};
ghost use Rattle.bx_page.specs.Contents.{IsPage};
ghost use Rattle.bx_clean.specs.Puts.{FreesSlotOf, FreesTo, PutsAndFrees};

use crate::held::is_slot;
use bx_base::OutOfMemory;
use bx_chunks::{ChunkError, free};
use bx_inodes::put_inode;
use bx_layout::Inode;
use bx_leaves::put_page;
use bx_page::Page;
use bx_records::Draft;
use bx_views::View;
use std::alloc::Global;

/// The draft of a page under a handle.
pub(crate) fn page_put(alloc: Global, handle: u64, page: &Page) -> Result<Draft, OutOfMemory>
    requires { IsPage page.now }
    ensures { IfOk result (λ new. PutsPage [] new handle page.now) }
{
    let mut draft = Draft::new(alloc);
    match put_page(alloc, &mut draft, handle, page) {
        Ok(()) => Ok(draft),
        Err(_) => Err(OutOfMemory),
    }
}

/// The draft of an inode under a handle.
pub(crate) fn inode_put(alloc: Global, handle: u64, inode: &Inode) -> Result<Draft, OutOfMemory>
    requires { IsInode inode.now }
    ensures { IfOk result (λ new. PutsInode [] new handle inode.now) }
{
    let mut draft = Draft::new(alloc);
    put_inode(alloc, &mut draft, handle, inode)?;
    Ok(draft)
}

/// The draft, with the slot of a handle of the volume freed too.
pub(crate) fn freed<V: View>(
    alloc: Global,
    draft: Draft,
    view: &V,
    areas: u16,
    handle: u64,
) -> Result<Draft, ChunkError>
    ensures { FreesSlotOf (V.held view.now) areas draft handle result }
{
    if !is_slot(areas, handle) {
        return Err(ChunkError::Stale);
    }
    free_slot(alloc, draft, view, handle)
}

/// The draft, with a slot freed too.
fn free_slot<V: View>(
    alloc: Global,
    draft: Draft,
    view: &V,
    handle: u64,
) -> Result<Draft, ChunkError>
    ensures { FreesTo (V.held view.now) draft handle result }
{
    let mut next = draft;
    match free(alloc, &mut next, view, handle) {
        Ok(()) => Ok(next),
        Err(error) => Err(error),
    }
}

/// The draft of a page under its handle, with the slot of another handle freed.
pub(crate) fn put_and_free<V: View>(
    alloc: Global,
    view: &V,
    areas: u16,
    handle: u64,
    page: &Page,
    gone: u64,
) -> Result<Draft, ChunkError>
    requires { IsPage page.now }
    ensures { PutsAndFrees (V.held view.now) areas handle page.now gone result }
{
    let draft = page_put(alloc, handle, page)?;
    freed(alloc, draft, view, areas, gone)
}
