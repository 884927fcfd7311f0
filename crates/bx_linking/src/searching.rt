//! Entries that may be there.

ghost use Rattle.std.specs.Prelude.{List, [], IfOk, IfSome, Some};
ghost use Rattle.bx_changes.specs.Procedures.{Name, NeedsOn, NeverInner, Truth};
ghost use Rattle.bx_entries.specs.bx_dirs.specs.Entries.{HasEntries};
ghost use Rattle.bx_changes.specs.bx_files.specs.Paths.{LandsAtValue, OnSearch};
ghost use Rattle.bx_truth.specs.Keys.{name_key, name_value};
ghost use Rattle.bx_linking.specs.Linking.{TellsEntry};

use bx_blink::BlinkError;
use bx_changes::files::needed;
use bx_inodes::Stop;
use bx_model::STALE;
use bx_views::View;
use std::alloc::Global;

/// The number and the handle of the entry with a name, in the directory whose tree is under a root; `None` exactly where no entry has it.
///
/// `Need` names a block of the volume that isn't held and is on the path of the search, shared. The status is `STALE` where what is held is no
/// directory.
pub fn find_entry<V: View>(
    alloc: Global,
    view: &V,
    areas: u16,
    root: u64,
    name: &[u8],
) -> Result<Option<(u32, u64)>, Stop>
    ensures list { (truth : Truth) (names : List Name) → HasEntries areas (V.held view.now) (V.hints view.now) truth [] root names → TellsEntry names name.now result }
    ensures finds { IfOk result (λ found. IfSome found (λ found. LandsAtValue (V.held view.now) (V.hints view.now) root (name_key name.now) (Some (name_value found.0 found.1)))) }
    ensures need { NeedsOn areas (V.held view.now) (OnSearch (V.held view.now) (V.hints view.now) root (name_key name.now)) result }
    ensures inner { NeverInner result }
{
    match bx_entries::dirs::lookup(alloc, view, root, name) {
        Ok(found) => Ok(Some(found)),
        Err(BlinkError::Absent) => Ok(None),
        Err(BlinkError::Need(at, _)) => Err(needed(areas, at)),
        Err(BlinkError::Stale) => Err(Stop::Status(STALE)),
        Err(BlinkError::OutOfMemory) => Err(Stop::OutOfMemory),
        // a search changes nothing
        Err(
            BlinkError::Full(_) | BlinkError::NoRoom(_) | BlinkError::Present | BlinkError::Crowded,
        ) => unreachable!(),
    }
}
