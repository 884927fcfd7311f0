//! What is posted of a page.

ghost use Rattle.std.specs.Prelude.{◌↔◌, IfOk, IsTrue};
ghost use Rattle.bx_blink.specs.Walks.{reads_with};
ghost use Rattle.bx_posts.specs.Separators.{MayPost, ShowsAt, SeparatorAt};

use bx_base::{Mode, OutOfMemory, Raw};
use bx_blink::{BlinkError, block_at, page_in, page_of, seen};
use bx_page_bytes::PageBytes;
use bx_records::Draft;
use bx_views::View;
use std::alloc::Global;

/// The separator between a page and the one on its right, to be put into their parent.
#[derive(Drop)]
pub(crate) struct Separator {
    /// The level that it goes to.
    pub(crate) level: u16,
    /// The key where the right one's range begins.
    pub(crate) key: Raw,
    /// The handle of the right one.
    pub(crate) child: u64,
}

/// A page under a handle, held shared at least.
fn page_shown<'a, V: View>(
    draft: &'a Draft,
    view: &'a V,
    handle: u64,
) -> Result<PageBytes<'a>, BlinkError>
    ensures { ShowsAt (reads_with (V.held view.now) (V.hints view.now) draft.now) handle result }
{
    let at = block_at(handle);
    match seen(draft, view, at, Mode::Shared) {
        None => Err(BlinkError::Need(at, Mode::Shared)),
        Some(block) => {
            if block.handle != handle {
                return Err(BlinkError::Stale);
            }
            match page_of(block) {
                None => Err(BlinkError::Stale),
                Some(page) => Ok(page),
            }
        }
    }
}

/// Whether a page has a right neighbour wherever it can be read, which is what `post` asks for.
pub fn may_post<V: View>(
    alloc: Global,
    draft: &Draft,
    view: &V,
    page: u64,
) -> Result<bool, OutOfMemory>
    ensures { IfOk result (λ may. IsTrue may ↔ MayPost (reads_with (V.held view.now) (V.hints view.now) draft.now) page) }
{
    match seen(draft, view, block_at(page), Mode::Shared) {
        None => Ok(true),
        Some(block) => {
            if block.handle != page {
                return Ok(true);
            }
            match page_in(alloc, block)? {
                None => Ok(true),
                Some(found) => match found.high() {
                    None => Ok(false),
                    Some(_) => Ok(true),
                },
            }
        }
    }
}

/// The separator behind a page that has a right neighbour.
pub(crate) fn separator_of<V: View>(
    alloc: Global,
    draft: &Draft,
    view: &V,
    handle: u64,
) -> Result<Separator, BlinkError>
    requires { MayPost (reads_with (V.held view.now) (V.hints view.now) draft.now) handle }
    ensures { SeparatorAt (reads_with (V.held view.now) (V.hints view.now) draft.now) handle result }
{
    let page = page_shown(draft, view, handle)?;
    let Some(level) = page.level().checked_add(1) else {
        return Err(BlinkError::Stale);
    };
    let Some(high) = page.high() else {
        unreachable!()
    };
    Ok(Separator {
        level,
        key: Raw::of(alloc, high)?,
        child: page.right(),
    })
}
