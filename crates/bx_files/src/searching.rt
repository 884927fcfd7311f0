//! Searches in the tree of a file.

ghost use Rattle.std.specs.Prelude.{[], IfOk};
ghost use Rattle.bx_page.specs.Contents.{value_of};
ghost use Rattle.bx_chunks.specs.bx_truth.specs.PageTrees.{PageTree, map_of};
ghost use Rattle.bx_views.specs.Truths.{Truth};
ghost use Rattle.bx_inodes.specs.bx_blink.specs.Hints.{Under};
ghost use Rattle.bx_inodes.specs.Stops.{NeedsOn, NeverInner};
ghost use Rattle.bx_files.specs.Paths.{LandsAtValue, IsNeed, OnSearch};
ghost use Rattle.bx_files.specs.Reads.{Tells};

use bx_base::{Mode, Raw};
use bx_inodes::Stop;
use bx_inodes::blink::{BlinkError, find};
use bx_model::STALE;
use bx_places::is_block;
use bx_views::View;
use std::alloc::Global;

/// The value of a key in the tree under a root, by the root's handle; `None` exactly where the tree hasn't got the key.
///
/// `Need` names a block of the volume that isn't held and is on the path of the search, shared. The status is `STALE`, where what is
/// held is no tree of the volume.
pub fn value_at<V: View>(
    alloc: Global,
    areas: u16,
    view: &V,
    root: u64,
    key: &[u8],
) -> Result<Option<Raw>, Stop>
    ensures map { (truth : Truth) (tree : PageTree) → Under areas (V.held view.now) (V.hints view.now) truth [] root tree → Tells (value_of (map_of tree) key.now) result }
    ensures finds { IfOk result (LandsAtValue (V.held view.now) (V.hints view.now) root key.now) }
    ensures need { NeedsOn areas (V.held view.now) (OnSearch (V.held view.now) (V.hints view.now) root key.now) result }
    ensures inner { NeverInner result }
{
    match find(alloc, view, root, key) {
        Ok(value) => Ok(Some(value)),
        Err(BlinkError::Absent) => Ok(None),
        Err(BlinkError::Need(at, _)) => Err(needed(areas, at)),
        Err(BlinkError::Stale) => Err(Stop::Status(STALE)),
        Err(BlinkError::OutOfMemory) => Err(Stop::OutOfMemory),
        // a search changes nothing
        Err(
            BlinkError::Full(_) | BlinkError::NoRoom(_) | BlinkError::Present | BlinkError::Crowded,
        ) => unreachable!(),
    }
}

/// What stops an attempt that needs a block, shared: the block, or `STALE` where the volume hasn't got it.
pub fn needed(areas: u16, at: u64) -> Stop
    ensures { IsNeed areas at result }
{
    if is_block(at, areas) {
        Stop::Need(at, Mode::Shared)
    } else {
        Stop::Status(STALE)
    }
}
