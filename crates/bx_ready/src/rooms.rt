//! Room in leaves.

ghost use Rattle.std.specs.Prelude.{◌≡◌, [], IfOk, IfSome};
ghost use Rattle.bx_blink.specs.Walks.{reads_with};
ghost use Rattle.bx_ready.specs.Common.{IsHeldDraft, NeedsUnheld, NoSlots, PageTree, TakesSlots, Truth, Under};
ghost use Rattle.bx_ready.specs.Rooms.{FindsFull, OnSplitPath, SplitsForIn};
ghost use Rattle.bx_ready.specs.Spare.{IfNoSlot};

use crate::target::Target;
use bx_blink::BlinkError;
use bx_leaves::leaf_of;
use bx_posts::splits::split;
use bx_records::Draft;
use bx_views::View;
use std::alloc::Global;

/// The bytes that two greatest entries take: a leaf that has less left is to be split.
const ROOM: usize = 544;

/// Splits the leaf of a key, near an area, where it has less than 544 bytes left, in the tree under a root: the draft that does so, to be
/// written before any entry is put under the key. `None` exactly where the leaf has room.
///
/// `Need` names a block that isn't held in that mode: one on the path of the walk to the leaf, which is to be held exclusively, or what the next
/// slot needs for a new page. `Stale` comes where what is held is no tree, and `Full` only where the leaf is full and that slot isn't there: it
/// tells how many are free in the view, which are fewer than 8.
pub fn split_for<V: View>(alloc: Global, view: &V, at: &Target) -> Result<Option<Draft>, BlinkError>
    ensures map { (truth : Truth) (tree : PageTree) → Under at.now.areas (V.held view.now) (V.hints view.now) truth [] at.now.root tree → SplitsForIn at.now.areas (V.held view.now) (V.hints view.now) truth at.now.root tree at.now.key.now result }
    ensures fair { NeedsUnheld (V.held view.now) (OnSplitPath at.now.near at.now.areas (V.held view.now) (V.hints view.now) at.now.root at.now.key.now) result }
    ensures held { IfOk result (λ found. IfSome found (IsHeldDraft (V.held view.now))) }
    ensures full { IfNoSlot (NoSlots (V.held view.now) at.now.near at.now.areas []) result }
    ensures taken { IfOk result (λ found. IfSome found (TakesSlots (V.held view.now) at.now.near at.now.areas [])) }
{
    let mut draft = Draft::new(alloc);
    match full_leaf(&draft, view, at.root, at.key) {
        Err(error) => Err(error),
        Ok(found) => match found {
            None => Ok(None),
            Some(leaf) => match split(alloc, &mut draft, view, at.root, leaf, at.near, at.areas) {
                Ok(()) => Ok(Some(draft)),
                Err(error) => Err(error),
            },
        },
    }
}

/// The leaf of a key, held exclusively, where it has less than 544 bytes left; `None` exactly where it has them.
fn full_leaf<V: View>(
    draft: &Draft,
    view: &V,
    root: u64,
    key: &[u8],
) -> Result<Option<u64>, BlinkError>
    ensures { FindsFull (reads_with (V.held view.now) (V.hints view.now) draft.now) root key.now result }
{
    match leaf_of(draft, view, root, key) {
        Err(error) => Err(error),
        Ok((handle, page)) => {
            if page.room() < ROOM {
                Ok(Some(handle))
            } else {
                Ok(None)
            }
        }
    }
}
