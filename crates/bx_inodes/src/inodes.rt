//! Inodes by the handles of their files.

ghost use Rattle.std.specs.Prelude.{◌≡◌, ◌≢◌, ◌↔◌, ℕ, IsTrue, IfOk, IfSome, IfNone};
ghost use Rattle.bx_layout.specs.declared.inode.Inode.{Inode as Seen};
ghost use Rattle.bx_blink.specs.bx_model.specs.declared.tree.Tree.{Tree};
ghost use Rattle.bx_blink.specs.bx_truth.specs.Chunks.{IsName};
ghost use Rattle.bx_blink.specs.bx_truth.specs.Stands.{StandsFor};
ghost use Rattle.bx_blink.specs.bx_truth.specs.Stored.{HasInode};
ghost use Rattle.bx_blink.specs.bx_views.specs.Truths.{IsTruth, Truth, with_draft};
ghost use Rattle.bx_blink.specs.Walks.{reads_with};
ghost use Rattle.bx_inodes.specs.Inodes.{FileAt, InodeAt};

use crate::stop::Stop;
use bx_base::{Mode, OutOfMemory};
use bx_blink::model::STALE;
use bx_blink::records::Draft;
use bx_blink::views::View;
use bx_blink::{block_at, seen};
use bx_layout::{Block, Inode};
use bx_places::{AREA_NUMBERS, SLOTS};
use std::alloc::Global;

/// The kind of the blocks that are inodes.
pub(crate) const INODE: u32 = 1;

/// The inode of the file with a handle, by the handle's number, over a view with a draft.
///
/// `Need` names its block in this mode, exactly where that isn't held so. The status is `STALE`, exactly where the handle is none of
/// the volume's, or its block is no inode of a file with this handle.
pub fn inode_at<V: View>(
    alloc: Global,
    draft: &Draft,
    view: &V,
    areas: u16,
    handle: u64,
    mode: Mode,
) -> Result<Inode, Stop>
    ensures at { InodeAt (reads_with (V.held view.now) (V.hints view.now) draft.now) areas handle mode result }
    ensures tree { (truth : Truth) (tree : Tree) → IsTruth (V.held view.now) truth → StandsFor areas (with_draft truth draft.now) tree
        → FileAt areas (with_draft truth draft.now) tree handle result }
{
    live_inode(alloc, draft, view, areas, handle, mode)
}

/// The same, by what is held.
fn live_inode<V: View>(
    alloc: Global,
    draft: &Draft,
    view: &V,
    areas: u16,
    handle: u64,
    mode: Mode,
) -> Result<Inode, Stop>
    ensures { InodeAt (reads_with (V.held view.now) (V.hints view.now) draft.now) areas handle mode result }
{
    if !is_name(areas, handle) {
        return Err(Stop::Status(STALE));
    }
    let at = block_at(handle);
    let Some(block) = seen(draft, view, at, mode) else {
        return Err(Stop::Need(at, mode));
    };
    match inode_in(alloc, block, handle)? {
        None => Err(Stop::Status(STALE)),
        Some(inode) => Ok(inode),
    }
}

/// Whether a handle may be one of the volume's.
fn is_name(areas: u16, handle: u64) -> bool
    ensures { IsTrue result ↔ IsName areas handle }
{
    let at = block_at(handle);
    at / AREA_NUMBERS < u64::from(areas) && at % AREA_NUMBERS < u64::from(SLOTS) && handle != 0
}

/// The inode of a file that a block is; `None` exactly where its header names another handle, or it is no such inode.
fn inode_in(alloc: Global, block: &Block, handle: u64) -> Result<Option<Inode>, OutOfMemory>
    ensures some { IfOk result (λ found. IfSome found (λ inode. (block.now.handle ≡ handle) × HasInode inode block.now × (inode.kind ≢ 0))) }
    ensures none { IfOk result (λ found. IfNone found (block.now.handle ≡ handle → (inode : Seen) → HasInode inode block.now → inode.kind ≡ 0)) }
{
    if block.handle != handle || block.kind != INODE {
        return Ok(None);
    }
    match Inode::read(alloc, block.payload.bytes())? {
        None => Ok(None),
        Some(inode) => {
            if inode.kind == 0 {
                return Ok(None);
            }
            Ok(Some(inode))
        }
    }
}
