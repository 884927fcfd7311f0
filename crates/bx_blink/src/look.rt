//! What is read of a view with a draft over it.

ghost use Rattle.std.specs.Prelude.{◌≡◌, IfOk, IfSome, IfNone};
ghost use Rattle.std.specs.Option.{option_copied};
ghost use Rattle.bx_truth.specs.PageTrees.{HasPage};
ghost use Rattle.bx_truth.specs.Chunks.{block_at};
ghost use Rattle.bx_blink.specs.Walks.{reads_with, IsNoPage};

use bx_base::{Mode, OutOfMemory};
use bx_page::Page;
use bx_page_bytes::PageBytes;
use bx_places::ChunkHandle;
use bx_truth::layout::Block;
use bx_truth::records::Draft;
use bx_truth::views::View;
use std::alloc::Global;

/// The kind of the blocks that are pages.
const PAGE: u32 = 2;

/// The number of the block that a handle is in.
pub fn block_at(handle: u64) -> u64
    ensures { result ≡ block_at handle }
{
    ChunkHandle::of(handle).block()
}

/// The block in the draft, and else the one that is held in a mode.
pub fn seen<'a, V: View>(draft: &'a Draft, view: &'a V, at: u64, mode: Mode) -> Option<&'a Block>
    ensures { option_copied result ≡ (reads_with (V.held view.now) (V.hints view.now) draft.now).held at mode }
{
    match draft.find(at) {
        Some(block) => Some(block),
        None => view.block(at, mode),
    }
}

/// The page that a block is, in the block's bytes; `None` exactly where it is none.
pub fn page_of<'a>(block: &'a Block) -> Option<PageBytes<'a>>
    ensures some { IfSome result (λ page. HasPage page block.now) }
    ensures none { IfNone result (IsNoPage block.now) }
{
    if block.kind != PAGE {
        return None;
    }
    PageBytes::read(block.payload.bytes())
}

/// The page that a block is, in lists that own their memory; `None` exactly where it is none.
pub fn page_in(alloc: Global, block: &Block) -> Result<Option<Page>, OutOfMemory>
    ensures some { IfOk result (λ found. IfSome found (λ page. HasPage page block.now)) }
    ensures none { IfOk result (λ found. IfNone found (IsNoPage block.now)) }
{
    if block.kind != PAGE {
        return Ok(None);
    }
    Page::read(alloc, block.payload.bytes())
}
