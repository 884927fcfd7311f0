//! The steps of a split, over a draft that is thrown away where one of them goes wrong.

ghost use Rattle.std.specs.Prelude.{◌≡◌};
ghost use Rattle.bx_page.specs.Contents.{IsPage};
ghost use Rattle.bx_blink.specs.Walks.{reads_with};
ghost use Rattle.bx_splits.specs.Cutting.{Allots, AllotsTwo, OwnsAt, PutsTwo, of_chunk};

use bx_base::Mode;
use bx_blink::{BlinkError, block_at, page_in, seen};
use bx_chunks::{ChunkError, allocate};
use bx_leaves::put_page;
use bx_page::Page;
use bx_records::Draft;
use bx_views::View;
use std::alloc::Global;

/// A page under a handle, held exclusively.
pub(crate) fn owned_page<V: View>(
    alloc: Global,
    draft: &Draft,
    view: &V,
    handle: u64,
) -> Result<Page, BlinkError>
    ensures { OwnsAt (reads_with (V.held view.now) (V.hints view.now) draft.now) handle result }
{
    let at = block_at(handle);
    match seen(draft, view, at, Mode::Exclusive) {
        None => Err(BlinkError::Need(at, Mode::Exclusive)),
        Some(block) => {
            if block.handle != handle {
                return Err(BlinkError::Stale);
            }
            match page_in(alloc, block)? {
                None => Err(BlinkError::Stale),
                Some(page) => Ok(page),
            }
        }
    }
}

/// A new handle, for a block of zeros.
pub(crate) fn take_handle<V: View>(
    alloc: Global,
    draft: &mut Draft,
    view: &V,
    near: u16,
    areas: u16,
) -> Result<u64, BlinkError>
    ensures { Allots (V.held view.now) draft.old draft.new near areas result }
{
    match allocate(alloc, draft, view, near, areas) {
        Ok(handle) => Ok(handle),
        Err(error) => Err(of_chunk(error)),
    }
}

/// How the errors of chunks are those of trees.
fn of_chunk(error: ChunkError) -> BlinkError
    ensures { result ≡ of_chunk error }
{
    match error {
        ChunkError::Need(at, mode) => BlinkError::Need(at, mode),
        ChunkError::Stale => BlinkError::Stale,
        ChunkError::Full(spare) => BlinkError::Full(spare),
        ChunkError::OutOfMemory => BlinkError::OutOfMemory,
        ChunkError::Crowded => BlinkError::Crowded,
    }
}

/// Two new handles.
pub(crate) fn take_two<V: View>(
    alloc: Global,
    draft: &mut Draft,
    view: &V,
    near: u16,
    areas: u16,
) -> Result<(u64, u64), BlinkError>
    ensures { AllotsTwo (V.held view.now) draft.old draft.new near areas result }
{
    let left = take_handle(alloc, draft, view, near, areas)?;
    let right = take_handle(alloc, draft, view, near, areas)?;
    Ok((left, right))
}

/// Puts two pages, each under its handle.
pub(crate) fn put_two(
    alloc: Global,
    draft: &mut Draft,
    one: u64,
    first: &Page,
    other: u64,
    second: &Page,
) -> Result<(), BlinkError>
    requires first { IsPage first.now }
    requires second { IsPage second.now }
    ensures { PutsTwo draft.old draft.new one first.now other second.now result }
{
    put_page(alloc, draft, one, first)?;
    put_page(alloc, draft, other, second)
}
