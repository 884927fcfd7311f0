//! One page of a dead file's tree.

ghost use Rattle.std.specs.Prelude.{◌≡◌, ◌<◌, ◌≤◌, ◌↔◌, length, IsTrue, IfOk, IfSome};
ghost use Rattle.bx_page.specs.Contents.{IsPage};
ghost use Rattle.bx_page.specs.Keys.{IsBelow};
ghost use Rattle.bx_clean.specs.Pages.{AbsorbsNext, CutsFirst, LedBy, PutsFirst, StripsPage, TakesFirst};

use crate::held::page_at;
use crate::puts::{page_put, put_and_free};
use bx_base::{OutOfMemory, Raw};
use bx_blink::handle_in;
use bx_chunks::ChunkError;
use bx_page::{Entry, Page, PageError};
use bx_records::Draft;
use bx_views::View;
use std::alloc::Global;

/// Puts a root with its first entry alone: what its other entries name is still led to by right links.
pub(crate) fn strip(alloc: Global, handle: u64, page: &Page) -> Result<Draft, ChunkError>
    requires { IsPage page.now }
    ensures { StripsPage handle page.now result }
{
    let Some(first) = page.entry(0) else {
        return Err(ChunkError::Stale);
    };
    let mut next = Page::new(alloc, page.level());
    match next.put(first.key.bytes(), first.value.bytes()) {
        Ok(()) => {}
        Err(_) => return Err(ChunkError::OutOfMemory),
    }
    let draft = page_put(alloc, handle, &next)?;
    Ok(draft)
}

/// Takes the first entry of a page out, and gives the handle that its value is; `None` where the page has no entries.
fn take_first(alloc: Global, page: &mut Page) -> Result<Option<u64>, OutOfMemory>
    ensures { IfOk result (λ found. TakesFirst page.old page.new found) }
{
    let Some(first) = page.entry(0) else {
        return Ok(None);
    };
    let handle = handle_in(first.value.bytes());
    let key = Raw::of(alloc, first.key.bytes())?;
    page.take(key.bytes());
    Ok(Some(handle))
}

/// Puts a leaf without its first entry, and frees the piece that this names.
pub(crate) fn cut<V: View>(
    alloc: Global,
    view: &V,
    areas: u16,
    handle: u64,
    page: Page,
) -> Result<Draft, ChunkError>
    ensures { CutsFirst (V.held view.now) areas handle page result }
{
    let mut left = page;
    match take_first(alloc, &mut left)? {
        None => Err(ChunkError::Stale),
        Some(piece) => put_and_free(alloc, view, areas, handle, &left, piece),
    }
}

/// Puts, in the place of a page, one that leads on as its right neighbour does, and frees the neighbour.
pub(crate) fn absorb<V: View>(
    alloc: Global,
    view: &V,
    areas: u16,
    handle: u64,
    page: &Page,
) -> Result<Draft, ChunkError>
    requires { IsPage page.now }
    ensures { AbsorbsNext (V.held view.now) areas handle page.now result }
{
    let right = page.right();
    match page_at(alloc, view, areas, right) {
        Err(error) => Err(error),
        Ok(next) => {
            if page.level() == 0 {
                return put_and_free(alloc, view, areas, handle, &next, right);
            }
            match led_by(alloc, next, page) {
                Err(error) => Err(error),
                Ok(led) => put_and_free(alloc, view, areas, handle, &led, right),
            }
        }
    }
}

/// A page with the first entry of another, which is above the leaves, in place of its own.
fn led_by(alloc: Global, page: Page, other: &Page) -> Result<Page, ChunkError>
    requires page { IsPage other.now }
    requires above { 0 < other.now.level }
    ensures { LedBy page other.now result }
{
    let Some(first) = other.entry(0) else {
        return Err(ChunkError::Stale);
    };
    let mut led = page;
    match take_first(alloc, &mut led)? {
        None => Err(ChunkError::Stale),
        Some(_) => match put_first(&mut led, first) {
            Ok(()) => Ok(led),
            Err(error) => Err(error),
        },
    }
}

/// Whether a key is below the high key of a page, where it has one.
fn is_within(page: &Page, key: &[u8]) -> bool
    ensures { IsTrue result ↔ IfSome page.now.high (IsBelow key.now) }
{
    match page.high() {
        None => true,
        Some(high) => key.cmp(high).is_lt(),
    }
}

/// Puts an entry into a page, where it fits.
fn put_first(page: &mut Page, first: &Entry) -> Result<(), ChunkError>
    requires key { length first.now.key ≤ 256 }
    requires child { length first.now.value ≡ 8 }
    ensures { PutsFirst page.old page.new first.now result }
{
    if !is_within(page, first.key.bytes()) {
        return Err(ChunkError::Stale);
    }
    match page.put(first.key.bytes(), first.value.bytes()) {
        Ok(()) => Ok(()),
        Err(PageError::NoRoom) => Err(ChunkError::Stale),
        Err(PageError::OutOfMemory) => Err(ChunkError::OutOfMemory),
    }
}
