//! Pages put into a draft.

ghost use Rattle.std.specs.Prelude.{◌≡◌, ◌+◌, ◌<◌, ◌↔◌, IsTrue, OnErr};
ghost use Rattle.bx_page.specs.Contents.{Contents, IsPage};
ghost use Rattle.bx_page.specs.Spelling.{Spells};
ghost use Rattle.bx_leaves.specs.Leaves.{IsPageNearlyFull, PutsOrNot};

use bx_base::{Mode, Raw};
use bx_blink::views::View;
use bx_blink::{BlinkError, block_at, page_of};
use bx_layout::Block;
use bx_page::Page;
use bx_places::PAYLOAD;
use bx_records::Draft;
use std::alloc::Global;

/// The kind of the blocks that are pages.
const PAGE: u32 = 2;

/// The bytes that two greatest entries take: a page that has less left is to be split.
const ROOM: usize = 544;

/// Puts a page into a draft, under its handle. `Crowded` exactly where the draft would have more than sixteen blocks. On an error
/// nothing changes.
pub fn put_page(
    alloc: Global,
    draft: &mut Draft,
    handle: u64,
    page: &Page,
) -> Result<(), BlinkError>
    requires { IsPage page.now }
    ensures unchanged { OnErr result (draft.new ≡ draft.old) }
    ensures puts { PutsOrNot draft.old draft.new handle page.now result }
{
    let mut payload = [0; PAYLOAD];
    page.write(&mut payload);
    put_bytes(alloc, draft, handle, &payload)
}

/// Puts the bytes of a page into a draft, under its handle, as `put_page` does.
pub(crate) fn put_bytes(
    alloc: Global,
    draft: &mut Draft,
    handle: u64,
    payload: &[u8],
) -> Result<(), BlinkError>
    ensures unchanged { OnErr result (draft.new ≡ draft.old) }
    ensures puts { (page : Contents) → Spells page payload.now → PutsOrNot draft.old draft.new handle page result }
{
    let payload = Raw::of(alloc, payload)?;
    let block = Block {
        handle,
        kind: PAGE,
        payload,
    };
    draft.put(block_at(handle), block)?;
    Ok(())
}

/// Whether a page as the view holds it, exclusively, has less left than two greatest entries take.
pub(crate) fn is_nearly_full<V: View>(view: &V, handle: u64) -> bool
    ensures { IsTrue result ↔ IsPageNearlyFull (V.held view.now) handle }
{
    match view.block(block_at(handle), Mode::Exclusive) {
        None => false,
        Some(block) => {
            if block.handle != handle {
                return false;
            }
            match page_of(block) {
                None => false,
                Some(page) => page.room() < ROOM,
            }
        }
    }
}
