//! The search for the name of a CREATE.

ghost use Rattle.std.specs.Prelude.{List, [], IfOk, IfSome};
ghost use Rattle.bx_changes.specs.Procedures.{Name, NeedsOn, NeverInner, Truth};
ghost use Rattle.bx_entries.specs.bx_dirs.specs.Entries.{HasEntries};
ghost use Rattle.bx_files.specs.Paths.{OnSearch};
ghost use Rattle.bx_truth.specs.Keys.{name_key};
ghost use Rattle.bx_creating.specs.Searching.{FindsEntry, FoundIn};

use bx_entries::entry_for;
use bx_inodes::Stop;
use bx_model::NOENT;
use bx_views::View;
use std::alloc::Global;

/// The number of the handle of the file that has a name in the directory whose tree is under a root; `None` exactly where no entry has it.
///
/// `Need` names a block of the volume that isn't held and is on the path of the search, shared. The status is `STALE` where what is held is no
/// directory.
pub(crate) fn found_in<V: View>(
    alloc: Global,
    view: &V,
    areas: u16,
    root: u64,
    name: &[u8],
) -> Result<Option<u64>, Stop>
    ensures list { (truth : Truth) (names : List Name) → HasEntries areas (V.held view.now) (V.hints view.now) truth [] root names → FoundIn names name.now result }
    ensures finds { IfOk result (λ found. IfSome found (FindsEntry (V.held view.now) (V.hints view.now) root name.now)) }
    ensures need { NeedsOn areas (V.held view.now) (OnSearch (V.held view.now) (V.hints view.now) root (name_key name.now)) result }
    ensures inner { NeverInner result }
{
    match entry_for(alloc, view, areas, root, name) {
        Ok(entry) => Ok(Some(entry.1)),
        Err(Stop::Status(status)) => {
            if status == NOENT {
                return Ok(None);
            }
            Err(Stop::Status(status))
        }
        Err(stop) => Err(stop),
    }
}
