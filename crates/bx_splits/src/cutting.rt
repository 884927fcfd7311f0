//! A page that isn't the root, cut in two.

ghost use Rattle.std.specs.Prelude.{◌≤◌, length};
ghost use Rattle.bx_splits.specs.Halves.{CutAt};

use crate::halves::Halves;
use crate::steps::{put_two, take_handle};
use bx_blink::BlinkError;
use bx_page::Page;
use bx_records::Draft;
use bx_views::View;
use std::alloc::Global;

/// Puts the other half of a page under a new handle, and its first half in its place.
pub(crate) fn cut<V: View>(
    alloc: Global,
    draft: &mut Draft,
    view: &V,
    handle: u64,
    page: Page,
    near: (u16, u16),
) -> Result<Halves, BlinkError>
    requires { 2 ≤ length page.entries }
    ensures { CutAt (V.held view.now) draft.old draft.new handle page near.0 near.1 result }
{
    let right = take_handle(alloc, draft, view, near.0, near.1)?;
    let mut page = page;
    let other = page.halve(right)?;
    put_two(alloc, draft, right, &other, handle, &page)?;
    Ok(Halves {
        left: handle,
        first: page,
        right,
        other,
    })
}
