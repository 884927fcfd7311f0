//! The tree of a dead file, which shrinks from its root down.

ghost use Rattle.bx_page.specs.Contents.{IsPage};
ghost use Rattle.bx_clean.specs.Trees.{ShrinksAbove, ShrinksBelow};

use crate::held::page_at;
use crate::pages::{absorb, cut, strip};
use crate::puts::put_and_free;
use bx_blink::handle_in;
use bx_chunks::ChunkError;
use bx_page::Page;
use bx_records::Draft;
use bx_views::View;
use std::alloc::Global;

/// A step at a tree whose root, this page, is above the leaves.
///
/// The root is left with one entry first. Then only the first page of the level below is named from above, so that each neighbour can go
/// that is taken over by it. Where it is alone at last, it takes the root's place, and the tree is lower by one level. So no step walks
/// anywhere, and no page's range begins elsewhere than before.
pub(crate) fn shrink_above<V: View>(
    alloc: Global,
    view: &V,
    areas: u16,
    root: u64,
    page: &Page,
) -> Result<Draft, ChunkError>
    requires { IsPage page.now }
    ensures { ShrinksAbove (V.held view.now) areas root page.now result }
{
    if page.len() > 1 {
        return strip(alloc, root, page);
    }
    let Some(first) = page.entry(0) else {
        return Err(ChunkError::Stale);
    };
    let child = handle_in(first.value.bytes());
    match page_at(alloc, view, areas, child) {
        Err(error) => Err(error),
        Ok(below) => shrink_below(alloc, view, areas, root, child, below),
    }
}

/// A step at the only page that a root names.
fn shrink_below<V: View>(
    alloc: Global,
    view: &V,
    areas: u16,
    root: u64,
    child: u64,
    below: Page,
) -> Result<Draft, ChunkError>
    ensures { ShrinksBelow (V.held view.now) areas root child below result }
{
    if below.right() == 0 {
        return put_and_free(alloc, view, areas, root, &below, child);
    }
    if below.level() == 0 && below.len() > 0 {
        return cut(alloc, view, areas, child, below);
    }
    absorb(alloc, view, areas, child, &below)
}
