//! Separators above keys.

ghost use Rattle.std.specs.Prelude.{◌≡◌, [], IfOk, IfSome};
ghost use Rattle.bx_ready.specs.Common.{IsHeldDraft, NeedsUnheld, NoSlots, PageTree, TakesSlots, Truth, Under};
ghost use Rattle.bx_ready.specs.Separators.{OnPostForPath, PostsForIn};
ghost use Rattle.bx_ready.specs.Spare.{IfNoSlot};

use crate::descents::{Descent, descend};
use crate::target::Target;
use bx_base::Mode;
use bx_blink::BlinkError;
use bx_posts::post;
use bx_records::Draft;
use bx_views::View;
use std::alloc::Global;

/// Posts the first separator that is missing above the page of a key, near an area, in the tree under a root: the draft that does so, to be
/// written before any entry is put under the key. `None` exactly where none is missing: each page from the root on names the one in whose range
/// the key is.
///
/// Hints don't count, since an old one may lack a separator that is there. `Need` names a block that isn't held in that mode: one of these
/// pages', shared, or one on the path of the post. `Stale` comes where what is held is no tree, and `Full` only where a separator is
/// missing and the next slot for a new page isn't there: it tells how many are free in the view, which are fewer than 8.
pub fn post_for<V: View>(alloc: Global, view: &V, at: &Target) -> Result<Option<Draft>, BlinkError>
    ensures map { (truth : Truth) (tree : PageTree) → Under at.now.areas (V.held view.now) (V.hints view.now) truth [] at.now.root tree → PostsForIn at.now.areas (V.held view.now) (V.hints view.now) truth at.now.root tree at.now.key.now result }
    ensures fair { NeedsUnheld (V.held view.now) (OnPostForPath at.now.near at.now.areas (V.held view.now) (V.hints view.now) at.now.root at.now.key.now) result }
    ensures held { IfOk result (λ found. IfSome found (IsHeldDraft (V.held view.now))) }
    ensures full { IfNoSlot (NoSlots (V.held view.now) at.now.near at.now.areas []) result }
    ensures taken { IfOk result (λ found. IfSome found (TakesSlots (V.held view.now) at.now.near at.now.areas [])) }
{
    match descend(view, at.root, at.key) {
        Descent::Needs(block) => Err(BlinkError::Need(block, Mode::Shared)),
        Descent::Lost => Err(BlinkError::Stale),
        Descent::Arrives => Ok(None),
        Descent::Short(page) => {
            let mut draft = Draft::new(alloc);
            match post(alloc, &mut draft, view, at.root, page, at.near, at.areas) {
                Ok(_) => Ok(Some(draft)),
                Err(error) => Err(error),
            }
        }
    }
}
