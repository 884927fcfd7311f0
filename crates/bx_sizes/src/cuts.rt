//! The last piece of a file in a range.

ghost use Rattle.std.specs.Prelude.{◌≤◌, [], ◌^◌};
ghost use Rattle.bx_blink.specs.Hints.{Under};
ghost use Rattle.bx_changes.specs.Procedures.{NeedsOn, NeverInner, Truth};
ghost use Rattle.bx_truth.specs.PageTrees.{PageTree, map_of};
ghost use Rattle.bx_sizes.specs.Clearing.{FindsLast, FoundBy, OnIndexes};

use crate::first_pieces::first_piece;
use bx_blink::handle_in;
use bx_changes::files::{content_key, value_at};
use bx_inodes::Stop;
use bx_model::STALE;
use bx_views::View;
use std::alloc::Global;

/// The last piece of a regular file with an index from one on, below another, by the root of its tree: its index, and the number of its
/// block's handle. `None` exactly where there is none.
///
/// `Need` names a block of the volume that isn't held, shared: one on the path of the search for a piece with such an index.
pub(crate) fn last_piece<V: View>(
    alloc: Global,
    areas: u16,
    view: &V,
    root: u64,
    from: u64,
    end: u64,
) -> Result<Option<(u32, u64)>, Stop>
    requires { end ≤ 2 ^ 32 }
    ensures map { (truth : Truth) (tree : PageTree) → Under areas (V.held view.now) (V.hints view.now) truth [] root tree → FindsLast (map_of tree) from end result }
    ensures found { FoundBy (V.held view.now) (V.hints view.now) root from end result }
    ensures need { NeedsOn areas (V.held view.now) (OnIndexes (V.held view.now) (V.hints view.now) root from end) result }
    ensures inner { NeverInner result }
{
    let mut low = from;
    let mut high = end;
    let mut found = None;
    while low < high {
        let middle = low + (high - low) / 2;
        match first_piece(alloc, areas, view, root, middle, high) {
            Err(stop) => return Err(stop),
            Ok(Some(index)) => {
                found = Some(index);
                low = u64::from(index) + 1;
            }
            Ok(None) => high = middle,
        }
    }
    let Some(index) = found else {
        return Ok(None);
    };
    match value_at(alloc, areas, view, root, &content_key(index)) {
        Err(stop) => Err(stop),
        Ok(None) => Err(Stop::Status(STALE)),
        Ok(Some(value)) => Ok(Some((index, handle_in(value.bytes())))),
    }
}
