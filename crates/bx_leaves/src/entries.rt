//! The calls that change an entry.

ghost use Rattle.std.specs.Prelude.{◌≡◌, ℕ, ◌+◌, ◌≤◌, length, OnOk, OnErr};
ghost use Rattle.bx_blink.specs.bx_truth.specs.PageTrees.{PageTree};
ghost use Rattle.bx_blink.specs.bx_views.specs.Attempts.{IsHeldDraft};
ghost use Rattle.bx_blink.specs.bx_views.specs.Truths.{Truth};
ghost use Rattle.bx_blink.specs.Hints.{Under};
ghost use Rattle.bx_blink.specs.Walks.{reads_with};
ghost use Rattle.bx_leaves.specs.Leaves.{OnLeafPath, InsertsAt, RemovesAt, LeafWith, LeafWithout};
ghost use Rattle.bx_leaves.specs.Changes.{InsertsIn, RemovesIn, NeedsUnheld};

use crate::leaf::leaf_of;
use crate::pages::{is_nearly_full, put_bytes};
use bx_blink::BlinkError;
use bx_blink::views::View;
use bx_places::PAYLOAD;
use bx_records::Draft;
use std::alloc::Global;

/// Puts an entry into the leaf of its key, in the tree under a root, by the root's handle. It changes one page.
///
/// `Need` names a block that isn't held in that mode and is on the path of the walk to the leaf, which is to be held exclusively.
/// `Stale` comes where what is held is no tree: where the view agrees with a tree it never comes. `Present` comes exactly where
/// the tree has the key, else `NoRoom` with the leaf's handle exactly where the leaf in the view has less than 544 bytes left or
/// the leaf in the draft has no room for the entry, else `Crowded` exactly where the draft has sixteen blocks and the leaf isn't
/// one of them. On an error the draft is as it was.
pub fn insert<V: View>(
    alloc: Global,
    draft: &mut Draft,
    view: &V,
    root: u64,
    key: &[u8],
    value: &[u8],
) -> Result<(), BlinkError>
    requires key { length key.now ≤ 256 }
    requires both { length key.now + length value.now ≤ 268 }
    ensures unchanged { OnErr result (draft.new ≡ draft.old) }
    ensures ends { InsertsAt (V.held view.now) (V.hints view.now) draft.old draft.new root key.now value.now result }
    ensures map { (areas : ℕ) (truth : Truth) (tree : PageTree) → Under areas (V.held view.now) (V.hints view.now) truth draft.old root tree → InsertsIn areas (V.held view.now) (V.hints view.now) truth draft.old draft.new root tree key.now value.now result }
    ensures fair { NeedsUnheld (V.held view.now) (OnLeafPath (reads_with (V.held view.now) (V.hints view.now) draft.old) root key.now) result }
    ensures held { IsHeldDraft (V.held view.now) draft.old → OnOk result (IsHeldDraft (V.held view.now) draft.new) }
{
    let mut payload = [0; PAYLOAD];
    let handle = leaf_with(draft, view, root, (key, value), &mut payload)?;
    put_bytes(alloc, draft, handle, &payload)
}

/// Writes the leaf of a key with an entry for the key, which it hasn't got yet, and gives its handle.
fn leaf_with<V: View>(
    draft: &Draft,
    view: &V,
    root: u64,
    entry: (&[u8], &[u8]),
    payload: &mut [u8],
) -> Result<u64, BlinkError>
    requires size { length payload.old ≡ 4096 }
    requires key { length entry.0.now ≤ 256 }
    requires both { length entry.0.now + length entry.1.now ≤ 268 }
    ensures { LeafWith (V.held view.now) (reads_with (V.held view.now) (V.hints view.now) draft.now) root entry.entry.0.now entry.entry.1.now payload.new result }
{
    let (key, value) = entry;
    let (handle, page) = leaf_of(draft, view, root, key)?;
    if page.get(key).is_some() {
        return Err(BlinkError::Present);
    }
    if is_nearly_full(view, handle) || !page.write_with(key, value, payload) {
        return Err(BlinkError::NoRoom(handle));
    }
    Ok(handle)
}

/// Takes the entry of a key out of its leaf, in the tree under a root, by the root's handle. It changes one page.
///
/// `Need` and `Stale` come as they do of `insert`. `Absent` comes exactly where the tree hasn't got the key, else `Crowded` exactly
/// where the draft has sixteen blocks and the leaf isn't one of them. On an error the draft is as it was.
pub fn remove<V: View>(
    alloc: Global,
    draft: &mut Draft,
    view: &V,
    root: u64,
    key: &[u8],
) -> Result<(), BlinkError>
    ensures unchanged { OnErr result (draft.new ≡ draft.old) }
    ensures ends { RemovesAt (V.held view.now) (V.hints view.now) draft.old draft.new root key.now result }
    ensures map { (areas : ℕ) (truth : Truth) (tree : PageTree) → Under areas (V.held view.now) (V.hints view.now) truth draft.old root tree → RemovesIn areas (V.held view.now) (V.hints view.now) truth draft.old draft.new root tree key.now result }
    ensures fair { NeedsUnheld (V.held view.now) (OnLeafPath (reads_with (V.held view.now) (V.hints view.now) draft.old) root key.now) result }
    ensures held { IsHeldDraft (V.held view.now) draft.old → OnOk result (IsHeldDraft (V.held view.now) draft.new) }
{
    let mut payload = [0; PAYLOAD];
    let handle = leaf_without(draft, view, root, key, &mut payload)?;
    put_bytes(alloc, draft, handle, &payload)
}

/// Writes the leaf of a key without the key's entry, and gives its handle.
fn leaf_without<V: View>(
    draft: &Draft,
    view: &V,
    root: u64,
    key: &[u8],
    payload: &mut [u8],
) -> Result<u64, BlinkError>
    requires { length payload.old ≡ 4096 }
    ensures { LeafWithout (reads_with (V.held view.now) (V.hints view.now) draft.now) root key.now payload.new result }
{
    let (handle, page) = leaf_of(draft, view, root, key)?;
    if page.get(key).is_none() {
        return Err(BlinkError::Absent);
    }
    page.write_without(key, payload);
    Ok(handle)
}
