//! Entries that come into directories.

ghost use Rattle.std.specs.Prelude.{◌≡◌, ◌+◌, ◌<◌, ◌≤◌, ℕ, List, None, Some, length, IfErr, IfOk};
ghost use Rattle.bx_changes.specs.Procedures.{File, HoldsFirst, IfFull, IsHeldDraft, Name, NeedsBy, NeverFirst, Tree, Truth, entry_named, file_at};
ghost use Rattle.bx_model.specs.Edits.{changed};
ghost use Rattle.bx_tree_files.specs.declared.file.Body.TheVariants.{Names};
ghost use Rattle.bx_tree_files.specs.Changes.{entered};
ghost use Rattle.bx_tree_files.specs.Files.{IsNumbered};
ghost use Rattle.bx_moving.specs.Edits.{GrowsTo, HasRoomFor, IsEdited, OnComing, Rests};

use crate::edits::Place;
use bx_base::Mode;
use bx_changes::ChangeError;
use bx_entries::{Known, enter};
use bx_inodes::inode_at;
use bx_records::Draft;
use bx_views::View;
use std::alloc::Global;

/// Puts an entry with a name into a directory: the draft with that. The entry takes the directory's next number and names the file with a
/// handle; a directory that comes in counts among the directory's links.
///
/// `Need` names the block of the directory's inode, exclusively, or one on the path of the two changes of its tree over the draft. The status is `STALE`
/// where no such entry may come into the directory: where it may, it never comes.
pub fn come<V: View>(
    alloc: Global,
    draft: Draft,
    view: &V,
    areas: u16,
    place: &Place<'_>,
    made: u64,
) -> Result<Draft, ChangeError>
    requires name { length place.now.name.now ≤ 255 }
    requires few { length draft ≤ 13 }
    ensures step { (truth : Truth) (tree : Tree) (file : File) (parent next : ℕ) (names : List Name) → Rests areas (V.held view.now) (V.hints view.now) truth draft tree
        → file_at tree.files place.now.directory ≡ Some file → file.body ≡ Names parent next names → entry_named names place.now.name.now ≡ None → IsNumbered file.nlink file.body → next < 4294967295
        → HasRoomFor areas (V.held view.now) truth draft place.now.directory place.now.name.now
        → GrowsTo areas truth draft (changed tree place.now.directory (entered place.now.time place.now.name.now made place.now.counts)) result }
    ensures need { IfErr result (NeedsBy areas (V.held view.now) (OnComing (V.held view.now) (V.hints view.now) areas draft place.now.directory place.now.name.now made)) }
    ensures inner { IfErr result NeverFirst }
    ensures full { IfErr result (IfFull (λ spare. ⊥)) }
    ensures first { IfErr result (HoldsFirst (V.held view.now)) }
    ensures held { IsHeldDraft (V.held view.now) draft → IfOk result (IsHeldDraft (V.held view.now)) }
    ensures edits { IsEdited (V.held view.now) (V.hints view.now) areas draft → IfOk result (IsEdited (V.held view.now) (V.hints view.now) areas) }
    ensures few { IfOk result (λ new. length new ≤ length draft + 3) }
{
    match inode_at(alloc, &draft, view, areas, place.directory, Mode::Exclusive) {
        Err(stop) => Err(ChangeError::Stopped(stop)),
        Ok(inode) => {
            let known = Known {
                handle: place.directory,
                inode,
            };
            let (name, counts) = (place.name, place.counts);
            enter(
                alloc, draft, view, areas, known, name, made, counts, place.time,
            )
        }
    }
}
