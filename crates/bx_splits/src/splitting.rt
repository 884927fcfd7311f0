//! The call that splits a page.

ghost use Rattle.std.specs.Prelude.{◌≡◌, ◌+◌, ◌<◌, OnOk, OnErr};
ghost use Rattle.bx_truth.specs.PageTrees.{Node, PageTree, IsPageOf};
ghost use Rattle.bx_views.specs.Attempts.{IsHeldDraft};
ghost use Rattle.bx_views.specs.Truths.{Truth};
ghost use Rattle.bx_blink.specs.Hints.{Under};
ghost use Rattle.bx_chunks.specs.Taking.{TakesSlots};
ghost use Rattle.bx_splits.specs.Splits.{SplitsIn};
ghost use Rattle.bx_page.specs.Contents.{Contents, size};
ghost use Rattle.bx_blink.specs.Walks.{reads_with};
ghost use Rattle.bx_splits.specs.Cutting.{IsOwnPage, NeedsForSplit, SplitsAt};

use crate::halves::put_halves;
use crate::steps::owned_page;
use bx_blink::BlinkError;
use bx_chunks::copy_of;
use bx_records::Draft;
use bx_views::View;
use std::alloc::Global;

/// Splits a page of the tree under a root, by their handles: half of its entries go to a new page on its right, near an area. The root
/// keeps its handle, rises one level, and gets an entry for each of two new pages.
///
/// `Need` names a block that is to be held exclusively: the page's, or what the next slot near the area needs for a new page. `Stale` comes
/// where the page's handle names another block, or no page: of a page of a tree it never comes. `Full` comes only where that slot isn't there,
/// and tells how many are free in the view. On an error the draft is as it was.
pub fn split<V: View>(
    alloc: Global,
    draft: &mut Draft,
    view: &V,
    root: u64,
    page: u64,
    near: u16,
    areas: u16,
) -> Result<(), BlinkError>
    requires { (contents : Contents) → IsOwnPage (reads_with (V.held view.now) (V.hints view.now) draft.old) page contents → 4096 < size contents + 544 }
    ensures unchanged { OnErr result (draft.new ≡ draft.old) }
    ensures at { SplitsAt (V.held view.now) (V.hints view.now) draft.old draft.new root page near areas result }
    ensures map { (truth : Truth) (tree : PageTree) (node : Node) → Under areas (V.held view.now) (V.hints view.now) truth draft.old root tree → IsPageOf tree node → node.handle ≡ page → SplitsIn areas (V.held view.now) (V.hints view.now) truth draft.old draft.new root tree page result }
    ensures fair { NeedsForSplit (V.held view.now) near areas draft.old page result }
    ensures taken { OnOk result (TakesSlots (V.held view.now) near areas draft.old draft.new) }
    ensures held { IsHeldDraft (V.held view.now) draft.old → OnOk result (IsHeldDraft (V.held view.now) draft.new) }
{
    // for the proof: a draft has at most sixteen blocks, each once
    let _blocks = draft.blocks();
    let owned = owned_page(alloc, draft, view, page)?;
    let mut next = copy_of(alloc, draft)?;
    put_halves(alloc, &mut next, view, root, page, owned, (near, areas))?;
    *draft = next;
    Ok(())
}
