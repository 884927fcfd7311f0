//! The first piece of a file in a range.

ghost use Rattle.std.specs.Prelude.{◌≡◌, ◌≤◌, ◌<◌, ◌^◌, ◌↔◌, ℕ, [], IfOk, slice_index};
ghost use Rattle.std.specs.Int.{w32, to_be_bytes};
ghost use Rattle.bx_blink.specs.Hints.{Under};
ghost use Rattle.bx_changes.specs.Procedures.{NeedsOn, NeverInner, Truth};
ghost use Rattle.bx_changes.specs.bx_files.specs.Paths.{OnSearch};
ghost use Rattle.bx_page.specs.Keys.{IsBelow};
ghost use Rattle.bx_truth.specs.Keys.{content_key as key_of_content};
ghost use Rattle.bx_truth.specs.PageTrees.{PageTree, map_of};
ghost use Rattle.bx_sizes.specs.Clearing.{OnIndexes};
ghost use Rattle.bx_sizes.specs.FirstPieces.{FindsFirst, ClearingGoesOn, IsLeastIndex, IsWithin};

use bx_blink::{BlinkError, leaf_at};
use bx_changes::files::{content_key, needed};
use bx_inodes::Stop;
use bx_model::STALE;
use bx_records::Draft;
use bx_views::View;
use std::alloc::Global;

/// How many indexes of pieces there are.
const INDEXES: u64 = 4294967296;

/// The first byte of the keys of pieces.
const CONTENT: u8 = 3;

/// The index of the first piece of a regular file with an index from one on, below another, by the root of its tree. `None` exactly where
/// there is none.
///
/// `Need` names a block of the volume that isn't held, shared: one on the path of the search for a piece with such an index.
pub(crate) fn first_piece<V: View>(
    alloc: Global,
    areas: u16,
    view: &V,
    root: u64,
    from: u64,
    end: u64,
) -> Result<Option<u32>, Stop>
    requires { end ≤ 2 ^ 32 }
    ensures map { (truth : Truth) (tree : PageTree) → Under areas (V.held view.now) (V.hints view.now) truth [] root tree → FindsFirst (map_of tree) from end result }
    ensures within { IsWithin from end result }
    ensures need { NeedsOn areas (V.held view.now) (OnIndexes (V.held view.now) (V.hints view.now) root from end) result }
    ensures inner { NeverInner result }
{
    let mut at = from;
    while at < end {
        match next_from(alloc, areas, view, root, at as u32) {
            Err(stop) => return Err(stop),
            Ok(next) => {
                if next == at {
                    return Ok(Some(at as u32));
                }
                at = next;
            }
        }
    }
    Ok(None)
}

/// An index such that no piece has one from another on, below it: that other one itself exactly where a piece has it. It is found at the
/// leaf of that piece's key, so it may be one that no piece has.
///
/// `Need` names a block of the volume that isn't held, shared: one on the path of the search for that piece.
fn next_from<V: View>(alloc: Global, areas: u16, view: &V, root: u64, at: u32) -> Result<u64, Stop>
    ensures map { (truth : Truth) (tree : PageTree) → Under areas (V.held view.now) (V.hints view.now) truth [] root tree → ClearingGoesOn (map_of tree) at result }
    ensures onward { IfOk result (λ next. at ≤ next) }
    ensures need { NeedsOn areas (V.held view.now) (OnSearch (V.held view.now) (V.hints view.now) root (key_of_content at)) result }
    ensures inner { NeverInner result }
{
    let none = Draft::new(alloc);
    let key = content_key(at);
    match leaf_at(&none, view, root, &key) {
        Ok(leaf) => match leaf.first_from(&key) {
            Some(entry) => {
                if entry.key() == key.as_slice() {
                    Ok(u64::from(at))
                } else {
                    Ok(least_index(entry.key()))
                }
            }
            None => match leaf.high() {
                Some(high) => Ok(least_index(high).max(u64::from(at) + 1)),
                None => Ok(INDEXES),
            },
        },
        Err(BlinkError::Need(block, _)) => Err(needed(areas, block)),
        Err(BlinkError::Stale) => Err(Stop::Status(STALE)),
        // a search changes nothing
        Err(
            BlinkError::Absent
            | BlinkError::Present
            | BlinkError::Full(_)
            | BlinkError::NoRoom(_)
            | BlinkError::OutOfMemory
            | BlinkError::Crowded,
        ) => unreachable!(),
    }
}

/// The least index of a piece whose key isn't below one; that behind the last one where all are below it.
fn least_index(key: &[u8]) -> u64
    ensures least { IsLeastIndex key.now result }
    ensures fits { result ≤ 2 ^ 32 }
{
    let Some((first, number)) = key.split_first() else {
        return 0;
    };
    if *first < CONTENT {
        return 0;
    }
    if *first > CONTENT {
        return INDEXES;
    }
    least_number(number)
}

/// The least number whose four bytes, the highest first, aren't below some bytes; that behind the last one where all are below them.
fn least_number(bytes: &[u8]) -> u64
    ensures least { (number : ℕ) → number < 2 ^ 32 → (IsBelow (to_be_bytes w32 number) bytes.now ↔ number < result) }
    ensures fits { result ≤ 2 ^ 32 }
{
    let front = u32::from_be_bytes([
        byte_or_zero(bytes, 0),
        byte_or_zero(bytes, 1),
        byte_or_zero(bytes, 2),
        byte_or_zero(bytes, 3),
    ]);
    if bytes.len() > 4 {
        u64::from(front) + 1
    } else {
        u64::from(front)
    }
}

/// The byte at a place; zero behind the last one.
fn byte_or_zero(bytes: &[u8], place: usize) -> u8
    ensures { result ≡ slice_index bytes.now place }
{
    match bytes.get(place) {
        Some(byte) => *byte,
        None => 0,
    }
}
