//! What a view holds exclusively: blocks by their handles, pages, and the inodes of dead files.

ghost use Rattle.std.specs.Prelude.{◌≡◌, ◌≢◌, ◌↔◌, IsTrue, IfOk, IfSome, IfNone};
ghost use Rattle.std.specs.Result.{result_map_both};
ghost use Rattle.bx_changes.specs.Procedures.{block_at as place_of};
ghost use Rattle.bx_layout.specs.declared.inode.Inode.{Inode as Seen};
ghost use Rattle.bx_truth.specs.Chunks.{IsSlot};
ghost use Rattle.bx_truth.specs.Stored.{HasInode};
ghost use Rattle.bx_clean.specs.Held.{BlockAt, DeadAt, PageAt};

use bx_base::{Mode, OutOfMemory};
use bx_blink::{block_at, page_in};
use bx_chunks::ChunkError;
use bx_layout::{Block, Inode};
use bx_page::Page;
use bx_places::{AREA_NUMBERS, SLOTS};
use bx_views::View;
use std::alloc::Global;

/// The kind of the blocks that are inodes.
const INODE: u32 = 1;

/// Whether a handle is one of a slot of the volume.
pub(crate) fn is_slot(areas: u16, handle: u64) -> bool
    ensures { IsTrue result ↔ IsSlot areas (place_of handle) }
{
    let at = block_at(handle);
    at / AREA_NUMBERS < u64::from(areas) && at % AREA_NUMBERS < u64::from(SLOTS)
}

/// The block of a handle.
fn held_block<'a, V: View>(view: &'a V, areas: u16, handle: u64) -> Result<&'a Block, ChunkError>
    ensures { BlockAt (V.held view.now) areas handle (result_map_both (λ block. block.now) (λ error. error) result) }
{
    if !is_slot(areas, handle) {
        return Err(ChunkError::Stale);
    }
    let at = block_at(handle);
    match view.block(at, Mode::Exclusive) {
        None => Err(ChunkError::Need(at, Mode::Exclusive)),
        Some(block) => {
            if block.handle == handle {
                Ok(block)
            } else {
                Err(ChunkError::Stale)
            }
        }
    }
}

/// The page of a handle.
pub(crate) fn page_at<V: View>(
    alloc: Global,
    view: &V,
    areas: u16,
    handle: u64,
) -> Result<Page, ChunkError>
    ensures { PageAt (V.held view.now) areas handle result }
{
    match held_block(view, areas, handle) {
        Err(error) => Err(error),
        Ok(block) => match page_in(alloc, block)? {
            None => Err(ChunkError::Stale),
            Some(page) => Ok(page),
        },
    }
}

/// The dead inode of a handle.
pub(crate) fn dead_inode_at<V: View>(
    alloc: Global,
    view: &V,
    areas: u16,
    handle: u64,
) -> Result<Inode, ChunkError>
    ensures { DeadAt (V.held view.now) areas handle result }
{
    match held_block(view, areas, handle) {
        Err(error) => Err(error),
        Ok(block) => match dead_inode_in(alloc, block)? {
            None => Err(ChunkError::Stale),
            Some(inode) => Ok(inode),
        },
    }
}

/// The dead inode that a block is; `None` exactly where it is none.
fn dead_inode_in(alloc: Global, block: &Block) -> Result<Option<Inode>, OutOfMemory>
    ensures some { IfOk result (λ found. IfSome found (λ inode. HasInode inode block.now × (inode.kind ≡ 0))) }
    ensures none { IfOk result (λ found. IfNone found ((inode : Seen) → HasInode inode block.now → inode.kind ≢ 0)) }
{
    if block.kind != INODE {
        return Ok(None);
    }
    match Inode::read(alloc, block.payload.bytes())? {
        None => Ok(None),
        Some(inode) => {
            if inode.kind == 0 {
                Ok(Some(inode))
            } else {
                Ok(None)
            }
        }
    }
}
