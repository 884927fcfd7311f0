//! The call that posts a separator.

ghost use Rattle.std.specs.Prelude.{◌≡◌, OnOk, OnErr};
ghost use Rattle.bx_truth.specs.PageTrees.{Node, PageTree, IsPageOf};
ghost use Rattle.bx_views.specs.Attempts.{IsHeldDraft};
ghost use Rattle.bx_views.specs.Truths.{Truth};
ghost use Rattle.bx_blink.specs.Hints.{Under};
ghost use Rattle.bx_blink.specs.Walks.{reads_with};
ghost use Rattle.bx_chunks.specs.Taking.{TakesSlots};
ghost use Rattle.bx_posts.specs.Posts.{NeedsForPost, PostsAt, PostsIn};
ghost use Rattle.bx_posts.specs.Separators.{MayPost};

use crate::parents::{parent_of, put_in_parent};
use crate::separators::separator_of;
use bx_blink::BlinkError;
use bx_chunks::copy_of;
use bx_records::Draft;
use bx_views::View;
use std::alloc::Global;

/// What came of posting a separator.
#[derive(Clone, Copy, PartialEq, Eq)]
pub enum Posted {
    /// The parent has it.
    Put,
    /// The parent was split, and its half has no room for it yet: it takes another call.
    SplitAlone,
}

/// Puts the separator of a page's right neighbour into their parent, in the tree under a root, by their handles. A parent that has less
/// than 544 bytes left is split first, near an area, and its own separator is left to a later call. The page has a right neighbour,
/// wherever it can be read, which `may_post` tells.
///
/// `Need` names a block that isn't held in that mode: the page's, one on the path of the walk to the parent, which is to be held
/// exclusively, or what the next slot near the area needs for a new page. `Stale` comes where what is held is no tree: of a page of a tree
/// it never comes. `Full` comes only where that slot isn't there, and tells how many are free in the view, and `Crowded` tells that the draft
/// would have more than sixteen blocks. On an error the draft is as it was.
pub fn post<V: View>(
    alloc: Global,
    draft: &mut Draft,
    view: &V,
    root: u64,
    page: u64,
    near: u16,
    areas: u16,
) -> Result<Posted, BlinkError>
    requires { MayPost (reads_with (V.held view.now) (V.hints view.now) draft.old) page }
    ensures unchanged { OnErr result (draft.new ≡ draft.old) }
    ensures at { PostsAt (V.held view.now) (V.hints view.now) draft.old draft.new root page near areas result }
    ensures map { (truth : Truth) (tree : PageTree) (node : Node) → Under areas (V.held view.now) (V.hints view.now) truth draft.old root tree → IsPageOf tree node → node.handle ≡ page → PostsIn areas (V.held view.now) (V.hints view.now) truth draft.old draft.new root tree node result }
    ensures fair { NeedsForPost (V.held view.now) (V.hints view.now) draft.old root page near areas result }
    ensures taken { OnOk result (TakesSlots (V.held view.now) near areas draft.old draft.new) }
    ensures held { IsHeldDraft (V.held view.now) draft.old → OnOk result (IsHeldDraft (V.held view.now) draft.new) }
{
    post_page(alloc, draft, view, root, page, (near, areas))
}

/// The same, by what is held.
fn post_page<V: View>(
    alloc: Global,
    draft: &mut Draft,
    view: &V,
    root: u64,
    handle: u64,
    near: (u16, u16),
) -> Result<Posted, BlinkError>
    requires { MayPost (reads_with (V.held view.now) (V.hints view.now) draft.old) handle }
    ensures unchanged { OnErr result (draft.new ≡ draft.old) }
    ensures at { PostsAt (V.held view.now) (V.hints view.now) draft.old draft.new root handle near.0 near.1 result }
{
    // for the proof: a draft has at most sixteen blocks, each once
    let _blocks = draft.blocks();
    let separator = separator_of(alloc, draft, view, handle)?;
    let parent = parent_of(alloc, draft, view, root, &separator)?;
    let mut next = copy_of(alloc, draft)?;
    match put_in_parent(alloc, &mut next, view, root, parent, &separator, near) {
        Err(error) => Err(error),
        Ok(posted) => {
            *draft = next;
            Ok(posted)
        }
    }
}
