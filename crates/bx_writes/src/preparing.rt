//! A piece that is to be written: what is read before anything is changed.

ghost use Rattle.std.specs.Prelude.{◌≡◌, ◌+◌, ◌≤◌, ◌<◌, ℕ, [], IfOk, IfErr, None, length};
ghost use Rattle.bx_changes.specs.Procedures.{HoldsFirst, IfFull, NeedsBy, NoSlots, TakesSlots, Tree, Truth};
ghost use Rattle.bx_files.specs.Paths.{LandsAtValue};
ghost use Rattle.bx_layout.specs.declared.inode.Inode.{Inode as Kept};
ghost use Rattle.bx_truth.specs.Keys.{content_key as key_of_content};
ghost use Rattle.bx_entries.specs.Lacking.{IfFirst};
ghost use Rattle.bx_entries.specs.bx_ready.specs.Lacking.{FindsRoom, MakesRoom};
ghost use Rattle.bx_entries.specs.bx_ready.specs.Ready.{OnReadyPath};
ghost use Rattle.bx_writes.specs.Lacking.{FindsEntry, MakesEntry};
ghost use Rattle.bx_writes.specs.Laid.{FoundBy};
ghost use Rattle.bx_writes.specs.Paths.{OnPrepared};
ghost use Rattle.bx_writes.specs.Steps.{FoundAt, HoldsPrepared, IsRegularOf, MissesIn, PreparesIn};

use crate::payloads::overwritten;
use bx_base::Raw;
use bx_blink::handle_in;
use bx_changes::ChangeError;
use bx_entries::ready::{Target, ready};
use bx_files::{content_key, value_at};
use bx_inodes::Stop;
use bx_sizes::piece_held;
use bx_views::View;
use std::alloc::Global;

/// What a piece with an index will be once bytes are written over it from a place on, by the root of its file's tree, near an area and of so many:
/// the number of its block's handle, if it has one, and its payload.
///
/// `Inner` are the blocks that make room for the entry of a piece that isn't there yet, and are to be written first, exactly where room is lacking; `Full`
/// comes only where the piece isn't there, and no slot is left for a page. `Need` names a block of the volume that isn't held: one on the search for the
/// piece, shared; its block, exclusively; or one that is asked for to make room. The status is `STALE` where what is held is no file: of one it never comes.
pub(crate) fn prepare<V: View>(
    alloc: Global,
    near: (u16, u16),
    view: &V,
    root: u64,
    place: (u32, usize),
    part: &[u8],
) -> Result<(Option<u64>, Raw), ChangeError>
    requires { place.1 + length part.now ≤ 4096 }
    ensures step { (volume : ℕ) (truth : Truth) (tree : Tree) (handle : ℕ) (inode : Kept) → IsRegularOf volume near.1 (V.held view.now) (V.hints view.now) truth tree handle inode → inode.tree ≡ root
        → PreparesIn near.1 truth root place.0 place.1 part.now result }
    ensures lacks { (volume : ℕ) (truth : Truth) (tree : Tree) (handle : ℕ) (inode : Kept) → IsRegularOf volume near.1 (V.held view.now) (V.hints view.now) truth tree handle inode → inode.tree ≡ root
        → IfErr result (IfFirst (MakesEntry near.1 (V.held view.now) (V.hints view.now) truth root place.0)) }
    ensures finds { (volume : ℕ) (truth : Truth) (tree : Tree) (handle : ℕ) (inode : Kept) → IsRegularOf volume near.1 (V.held view.now) (V.hints view.now) truth tree handle inode → inode.tree ≡ root
        → IfOk result (λ made. FindsEntry near.1 truth root place.0) }
    ensures need { IfErr result (NeedsBy near.1 (V.held view.now) (OnPrepared near.0 near.1 (V.held view.now) (V.hints view.now) root place.0)) }
    ensures known { IfOk result (λ made. FoundBy (V.held view.now) (V.hints view.now) root place.0 made.0) }
    ensures full { IfErr result (IfFull (λ spare. LandsAtValue (V.held view.now) (V.hints view.now) root (key_of_content place.0) None × NoSlots (V.held view.now) near.0 near.1 [] spare)) }
    ensures taken { IfErr result (IfFirst (TakesSlots (V.held view.now) near.0 near.1 [])) }
    ensures first { IfErr result (HoldsFirst (V.held view.now)) }
    ensures held { IfOk result (λ made. HoldsPrepared (V.held view.now) made.0) }
    ensures long { IfOk result (λ made. length made.1 ≡ 4096) }
{
    match value_at(alloc, near.1, view, root, &content_key(place.0)) {
        Err(stop) => Err(ChangeError::Stopped(stop)),
        Ok(Some(value)) => found(alloc, near.1, view, handle_in(value.bytes()), place.1, part),
        Ok(None) => missing(alloc, near, view, root, place, part),
    }
}

/// The same of a piece that is there, by the number of its block's handle.
fn found<V: View>(
    alloc: Global,
    areas: u16,
    view: &V,
    names: u64,
    from: usize,
    part: &[u8],
) -> Result<(Option<u64>, Raw), ChangeError>
    requires { from + length part.now ≤ 4096 }
    ensures at { FoundAt areas (V.held view.now) names from part.now result }
    ensures long { IfOk result (λ made. length made.1 ≡ 4096) }
{
    match piece_held(areas, view, names) {
        Err(stop) => Err(ChangeError::Stopped(stop)),
        Ok(block) => match overwritten(alloc, Some(block), from, part) {
            Err(_) => Err(ChangeError::Stopped(Stop::OutOfMemory)),
            Ok(payload) => Ok((Some(names), payload)),
        },
    }
}

/// The same of a piece that isn't there: room is found for its entry.
fn missing<V: View>(
    alloc: Global,
    near: (u16, u16),
    view: &V,
    root: u64,
    place: (u32, usize),
    part: &[u8],
) -> Result<(Option<u64>, Raw), ChangeError>
    requires { place.1 + length part.now ≤ 4096 }
    ensures step { (volume : ℕ) (truth : Truth) (tree : Tree) (handle : ℕ) (inode : Kept) → IsRegularOf volume near.1 (V.held view.now) (V.hints view.now) truth tree handle inode → inode.tree ≡ root
        → MissesIn near.1 truth root place.0 place.1 part.now result }
    ensures lacks { (volume : ℕ) (truth : Truth) (tree : Tree) (handle : ℕ) (inode : Kept) → IsRegularOf volume near.1 (V.held view.now) (V.hints view.now) truth tree handle inode → inode.tree ≡ root
        → IfErr result (IfFirst (MakesRoom near.1 (V.held view.now) (V.hints view.now) truth root (key_of_content place.0))) }
    ensures finds { (volume : ℕ) (truth : Truth) (tree : Tree) (handle : ℕ) (inode : Kept) → IsRegularOf volume near.1 (V.held view.now) (V.hints view.now) truth tree handle inode → inode.tree ≡ root
        → IfOk result (λ made. FindsRoom near.1 truth root (key_of_content place.0)) }
    ensures need { IfErr result (NeedsBy near.1 (V.held view.now) (OnReadyPath near.0 near.1 (V.held view.now) (V.hints view.now) root (key_of_content place.0))) }
    ensures full { IfErr result (IfFull (NoSlots (V.held view.now) near.0 near.1 [])) }
    ensures taken { IfErr result (IfFirst (TakesSlots (V.held view.now) near.0 near.1 [])) }
    ensures first { IfErr result (HoldsFirst (V.held view.now)) }
    ensures none { IfOk result (λ made. made.0 ≡ None) }
    ensures long { IfOk result (λ made. length made.1 ≡ 4096) }
{
    let at = Target {
        root,
        key: &content_key(place.0),
        near: near.0,
        areas: near.1,
    };
    match ready(alloc, view, &at) {
        Err(error) => Err(ChangeError::of_tree(near.1, error)),
        Ok(Some(draft)) => Err(ChangeError::Stopped(Stop::Inner(draft))),
        Ok(None) => match overwritten(alloc, None, place.1, part) {
            Err(_) => Err(ChangeError::Stopped(Stop::OutOfMemory)),
            Ok(payload) => Ok((None, payload)),
        },
    }
}
