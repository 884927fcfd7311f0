//! The one answer of what is to be written first.

ghost use Rattle.std.specs.Prelude.{[], IfOk, IfSome, IfNone};
ghost use Rattle.bx_ready.specs.Keeping.{KeepsFiles};
ghost use Rattle.bx_model.specs.declared.tree.Tree.{Tree};
ghost use Rattle.bx_ready.specs.Common.{IsHeldDraft, NeedsUnheld, NoSlots, PageTree, TakesSlots, Truth, Under};
ghost use Rattle.bx_ready.specs.Lacking.{FindsRoom, MakesRoom};
ghost use Rattle.bx_ready.specs.Ready.{IsFileUnder, OnReadyPath, ReadiesIn};
ghost use Rattle.bx_ready.specs.Spare.{IfNoSlot};

use crate::rooms::split_for;
use crate::separators::post_for;
use crate::target::Target;
use bx_blink::BlinkError;
use bx_records::Draft;
use bx_views::View;
use std::alloc::Global;

/// What is to be written before an entry is put under a key, near an area, in the tree under a root: the draft that posts a separator
/// that is missing above the key's page, or else the one that splits its leaf where that has less than 544 bytes left. `None` exactly
/// where the entry finds room, below no missing separator: a draft comes only where room is lacking. It leaves all files as they are.
///
/// `Need`, `Stale` and `Full` come as they do of `post_for` and `split_for`.
pub fn ready<V: View>(alloc: Global, view: &V, at: &Target) -> Result<Option<Draft>, BlinkError>
    ensures map { (truth : Truth) (tree : PageTree) → Under at.now.areas (V.held view.now) (V.hints view.now) truth [] at.now.root tree → ReadiesIn at.now.areas (V.held view.now) (V.hints view.now) truth at.now.root tree at.now.key.now result }
    ensures lacks { (truth : Truth) (tree : PageTree) → Under at.now.areas (V.held view.now) (V.hints view.now) truth [] at.now.root tree → IfOk result (λ found. IfSome found (MakesRoom at.now.areas (V.held view.now) (V.hints view.now) truth at.now.root at.now.key.now)) }
    ensures finds { (truth : Truth) (tree : PageTree) → Under at.now.areas (V.held view.now) (V.hints view.now) truth [] at.now.root tree → IfOk result (λ found. IfNone found (FindsRoom at.now.areas truth at.now.root at.now.key.now)) }
    ensures files { (truth : Truth) (tree : Tree) → IsFileUnder at.now.areas (V.held view.now) (V.hints view.now) truth at.now.root tree → IfOk result (λ found. IfSome found (λ new. KeepsFiles at.now.areas truth [] new tree)) }
    ensures fair { NeedsUnheld (V.held view.now) (OnReadyPath at.now.near at.now.areas (V.held view.now) (V.hints view.now) at.now.root at.now.key.now) result }
    ensures held { IfOk result (λ found. IfSome found (IsHeldDraft (V.held view.now))) }
    ensures full { IfNoSlot (NoSlots (V.held view.now) at.now.near at.now.areas []) result }
    ensures taken { IfOk result (λ found. IfSome found (TakesSlots (V.held view.now) at.now.near at.now.areas [])) }
{
    first_of(alloc, view, at)
}

/// The same, but for the files.
fn first_of<V: View>(alloc: Global, view: &V, at: &Target) -> Result<Option<Draft>, BlinkError>
    ensures map { (truth : Truth) (tree : PageTree) → Under at.now.areas (V.held view.now) (V.hints view.now) truth [] at.now.root tree → ReadiesIn at.now.areas (V.held view.now) (V.hints view.now) truth at.now.root tree at.now.key.now result }
    ensures fair { NeedsUnheld (V.held view.now) (OnReadyPath at.now.near at.now.areas (V.held view.now) (V.hints view.now) at.now.root at.now.key.now) result }
    ensures held { IfOk result (λ found. IfSome found (IsHeldDraft (V.held view.now))) }
    ensures full { IfNoSlot (NoSlots (V.held view.now) at.now.near at.now.areas []) result }
    ensures taken { IfOk result (λ found. IfSome found (TakesSlots (V.held view.now) at.now.near at.now.areas [])) }
{
    match post_for(alloc, view, at) {
        Err(error) => Err(error),
        Ok(Some(draft)) => Ok(Some(draft)),
        Ok(None) => split_for(alloc, view, at),
    }
}
