//! The parent of a page, and what is put into it.

ghost use Rattle.std.specs.Prelude.{◌≡◌, ◌<◌, ◌≤◌, IfSome, length};
ghost use Rattle.bx_page.specs.Contents.{IsPage};
ghost use Rattle.bx_page.specs.Keys.{IsBelow};
ghost use Rattle.bx_blink.specs.Walks.{reads_with};
ghost use Rattle.bx_posts.specs.Parents.{ParentOf, PutsAt, PutsInParent};

use crate::posting::Posted;
use crate::separators::Separator;
use bx_base::Mode;
use bx_blink::{BlinkError, End, block_at, seen, walk};
use bx_page::{Page, PageError};
use bx_records::Draft;
use bx_splits::leaves::put_page;
use bx_splits::put_halves;
use bx_views::View;
use std::alloc::Global;

/// The bytes that two greatest entries take: a page that has less left is to be split.
const ROOM: usize = 544;

/// The page of a separator's level in whose range its key is, with its handle, held exclusively.
pub(crate) fn parent_of<V: View>(
    alloc: Global,
    draft: &Draft,
    view: &V,
    root: u64,
    separator: &Separator,
) -> Result<(u64, Page), BlinkError>
    ensures { ParentOf (reads_with (V.held view.now) (V.hints view.now) draft.now) root separator.now.level separator.now.key result }
{
    let (level, key) = (separator.level, separator.key.bytes());
    match walk(draft, view, root, key, level, Mode::Exclusive) {
        End::Needs(at, mode) => Err(BlinkError::Need(at, mode)),
        End::Lost => Err(BlinkError::Stale),
        End::Lands(handle, page) => {
            let at = block_at(handle);
            match seen(draft, view, at, Mode::Exclusive) {
                None => Err(BlinkError::Need(at, Mode::Exclusive)),
                Some(_) => Ok((handle, page.copied(alloc)?)),
            }
        }
    }
}

/// Puts a separator into a page, where that has room for it.
fn put_separator(
    alloc: Global,
    draft: &mut Draft,
    handle: u64,
    page: Page,
    separator: &Separator,
) -> Result<Posted, BlinkError>
    requires key { length separator.now.key ≤ 256 }
    requires below { IfSome page.high (IsBelow separator.now.key) }
    ensures { PutsAt draft.old draft.new handle page separator.now result }
{
    let mut page = page;
    match page.put(separator.key.bytes(), &separator.child.to_be_bytes()) {
        Err(PageError::NoRoom) => Ok(Posted::SplitAlone),
        Err(PageError::OutOfMemory) => Err(BlinkError::OutOfMemory),
        Ok(()) => {
            put_page(alloc, draft, handle, &page)?;
            Ok(Posted::Put)
        }
    }
}

/// Puts a separator into its parent, which is split first where it has less left than two greatest entries take.
pub(crate) fn put_in_parent<V: View>(
    alloc: Global,
    draft: &mut Draft,
    view: &V,
    root: u64,
    parent: (u64, Page),
    separator: &Separator,
    near: (u16, u16),
) -> Result<Posted, BlinkError>
    requires key { length separator.now.key ≤ 256 }
    requires below { IfSome parent.1.high (IsBelow separator.now.key) }
    requires page { IsPage parent.1 }
    ensures { PutsInParent (V.held view.now) draft.old draft.new root parent.0 parent.1 separator.now near.0 near.1 result }
{
    let (handle, page) = parent;
    if page.room() >= ROOM {
        return put_separator(alloc, draft, handle, page, separator);
    }
    let halves = put_halves(alloc, draft, view, root, handle, page, near)?;
    let (handle, half) = halves.half_for(separator.key.bytes());
    put_separator(alloc, draft, handle, half, separator)
}
