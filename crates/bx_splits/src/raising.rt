//! The root, cut in two.

ghost use Rattle.std.specs.Prelude.{◌≡◌, ◌+◌, ◌<◌, ◌≤◌, [], IfOk, None, OnOk, length};
ghost use Rattle.std.specs.Int.{w64, to_be_bytes};
ghost use Rattle.bx_page.specs.Contents.{IsPage, size, with_value};
ghost use Rattle.bx_page.specs.Keys.{IsBelow};
ghost use Rattle.bx_splits.specs.Halves.{PutsThree, RaiseAt};
ghost use Rattle.bx_splits.specs.Splits.{root_entries};

use crate::halves::Halves;
use crate::steps::{put_two, take_two};
use bx_base::OutOfMemory;
use bx_blink::BlinkError;
use bx_leaves::put_page;
use bx_page::{Page, PageError};
use bx_records::Draft;
use bx_views::View;
use std::alloc::Global;

/// Puts the halves of the root under new handles, and in its place a page of the next level, with an entry for each.
pub(crate) fn raise<V: View>(
    alloc: Global,
    draft: &mut Draft,
    view: &V,
    root: u64,
    page: Page,
    near: (u16, u16),
) -> Result<Halves, BlinkError>
    requires { 2 ≤ length page.entries }
    ensures { RaiseAt (V.held view.now) draft.old draft.new root page near.0 near.1 result }
{
    let Some(level) = page.level().checked_add(1) else {
        return Err(BlinkError::Stale);
    };
    let (left, right) = take_two(alloc, draft, view, near.0, near.1)?;
    let mut page = page;
    let other = page.halve(right)?;
    let Some(middle) = page.high() else {
        return Err(BlinkError::Stale);
    };
    let top = page_above(alloc, level, (left, right), middle)?;
    let halves = Halves {
        left,
        first: page,
        right,
        other,
    };
    match put_raised(alloc, draft, root, &top, &halves) {
        Ok(()) => Ok(halves),
        Err(error) => Err(error),
    }
}

/// Puts the halves of a root, and the page above them in its place.
fn put_raised(
    alloc: Global,
    draft: &mut Draft,
    root: u64,
    top: &Page,
    halves: &Halves,
) -> Result<(), BlinkError>
    requires first { IsPage halves.now.first }
    requires other { IsPage halves.now.other }
    requires top { IsPage top.now }
    ensures { PutsThree draft.old draft.new root top.now halves.now result }
{
    put_two(
        alloc,
        draft,
        halves.left,
        &halves.first,
        halves.right,
        &halves.other,
    )?;
    put_page(alloc, draft, root, top)
}

/// The page of a level with two entries: for the empty key, and for a middle key that isn't empty.
fn page_above(
    alloc: Global,
    level: u16,
    handles: (u64, u64),
    middle: &[u8],
) -> Result<Page, OutOfMemory>
    requires level { 0 < level }
    requires middle { IsBelow [] middle.now }
    requires key { length middle.now ≤ 256 }
    ensures { IfOk result (λ top. top ≡ record { level = level; right = 0; high = None; entries = root_entries handles.0 handles.1 middle.now }) }
{
    let mut top = Page::new(alloc, level);
    put_child(&mut top, &[], handles.0)?;
    put_child(&mut top, middle, handles.1)?;
    Ok(top)
}

/// Puts an entry for a child into a page with room for two greatest entries.
fn put_child(page: &mut Page, key: &[u8], child: u64) -> Result<(), OutOfMemory>
    requires key { length key.now ≤ 256 }
    requires last { page.old.high ≡ None }
    requires room { size page.old + 544 ≤ 4096 }
    ensures { OnOk result (page.new ≡ with_value page.old key.now (to_be_bytes w64 child)) }
{
    match page.put(key, &child.to_be_bytes()) {
        Ok(()) => Ok(()),
        Err(PageError::OutOfMemory) => Err(OutOfMemory),
        Err(PageError::NoRoom) => {
            prove!(false);
            Err(OutOfMemory)
        }
    }
}
