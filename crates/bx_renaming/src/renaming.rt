//! RENAME.

ghost use Rattle.std.specs.Prelude.{◌≡◌, ◌≤◌, ℕ, [], length, Err, IfErr, IfOk};
ghost use Rattle.bx_changes.specs.Procedures.{ComesFirst, HoldsFirst, IfFull, IsChangeBy, IsHeldDraft, KeepsHints, NeedsBy, NoSlots, OnVolume, Tree, Truth, names_of, parts_of};
ghost use Rattle.bx_linking.specs.Lacking.{IfFirst, NoSlotsNear};
ghost use Rattle.bx_linking.specs.Drafting.{ComesBy};
ghost use Rattle.bx_model.specs.Moves.{move_between as between_of};
ghost use Rattle.bx_model.specs.Renaming.{rename as rename_of};
ghost use Rattle.bx_renaming.specs.Lacking.{MakesRoomFor, PreparesMove, ReadyFor, ReadyToMove};
ghost use Rattle.bx_renaming.specs.Path.{OnPlaces, OnRename};
ghost use Rattle.bx_renaming.specs.Renaming.{AreDirectories};

use crate::finding::moved_for;
use crate::onto::move_onto;
use crate::places::{Between, Names, Places, places_for};
use bx_changes::ChangeError;
use bx_model::{Call, NFS_OK, Reply};
use bx_records::Draft;
use bx_views::View;
use std::alloc::Global;

/// RENAME (RFC 1094, section 2.2.12), of a volume with at most 64 areas: the blocks that it changes, and the reply. The file with a name in the
/// directory that a file handle of the volume names gets a new name, of at most 255 bytes, in the directory that another one names. A file that
/// had that name loses it; where both names are one file, nothing changes.
///
/// `Need` names a block that isn't held: that of a directory's inode or of what a name names, exclusively, or one on the path of the searches, of the way
/// up from the second directory where a directory moves into it from another one, to room for the new name in its tree, or of the changes. The status is `STALE` where a file handle or an entry names no
/// file, `NOTDIR` where a file handle names no directory, `ACCES` of a bad name and where the caller may not change a directory, `NOENT` where no entry
/// has the name, `PERM` where a directory would come below itself, `NAMETOOLONG` where 512 moves to a parent don't lead from the second directory to
/// the root, `NOTDIR` of a directory in the place of another file, `ISDIR` of a file in that of a directory, `NOTEMPTY` where that has entries, and
/// `DQUOT` where the second directory has no number left. `Inner` are the blocks that make room, which are to be written first: they come exactly where
/// none of these errors does, the two names aren't one file, and room for the new one is lacking in the second directory's tree. `Full` comes exactly as
/// `Inner` does, where no slot is left for that; then fewer than 8 are free. `now` is in seconds and microseconds.
pub fn rename<V: View>(
    alloc: Global,
    volume: u64,
    areas: u16,
    call: &Call,
    names: &Names<'_>,
    now: (u32, u32),
    view: &V,
) -> Result<(Draft, Reply), ChangeError>
    requires few { areas ≤ 64 }
    requires name { length names.now.new_name.now ≤ 255 }
    ensures step { OnVolume volume areas (V.held view.now) (V.hints view.now)
        (λ truth tree. IsChangeBy volume areas truth (λ spare. rename_of tree call.now names.now.from.now names.now.name.now names.now.to.now names.now.new_name.now now spare) result) }
    ensures hints { KeepsHints volume areas (V.held view.now) (V.hints view.now) result }
    ensures lacks { OnVolume volume areas (V.held view.now) (V.hints view.now)
        (λ truth tree. IfErr result (ComesFirst (λ status. rename_of tree call.now names.now.from.now names.now.name.now names.now.to.now names.now.new_name.now now 8 ≡ Err status) (PreparesMove volume areas (V.held view.now) (V.hints view.now) truth tree names.now.from.now names.now.name.now names.now.to.now names.now.new_name.now))) }
    ensures ready { OnVolume volume areas (V.held view.now) (V.hints view.now) (λ truth tree. IfOk result (λ made. ReadyToMove volume areas truth tree names.now.from.now names.now.name.now names.now.to.now names.now.new_name.now)) }
    ensures need { IfErr result (NeedsBy areas (V.held view.now) (OnRename (V.held view.now) (V.hints view.now) volume areas names.now.from.now names.now.name.now names.now.to.now names.now.new_name.now)) }
    ensures first { IfErr result (HoldsFirst (V.held view.now)) }
    ensures full { IfErr result (IfFull (NoSlotsNear volume areas (V.held view.now) names.now.to.now)) }
    ensures wanted { OnVolume volume areas (V.held view.now) (V.hints view.now)
        (λ truth tree. IfErr result (IfFull (λ spare. ReadyToMove volume areas truth tree names.now.from.now names.now.name.now names.now.to.now names.now.new_name.now → ⊥))) }
    ensures held { IfOk result (λ made. IsHeldDraft (V.held view.now) made.0) }
{
    let (name, new_name) = (names.name, names.new_name);
    match places_for(alloc, volume, areas, call, names, view) {
        Err(stop) => Err(ChangeError::Stopped(stop)),
        Ok(places) => match move_between(alloc, view, areas, &places, name, new_name, now) {
            Err(error) => Err(error),
            Ok(draft) => Ok((draft, Reply::Status(NFS_OK))),
        },
    }
}

/// Moves the file with a name in the first directory to a name in the second one: the draft that does so.
fn move_between<V: View>(
    alloc: Global,
    view: &V,
    areas: u16,
    places: &Places,
    name: &[u8],
    new_name: &[u8],
    now: (u32, u32),
) -> Result<Draft, ChangeError>
    requires name { length new_name.now ≤ 255 }
    ensures step { (volume : ℕ) (truth : Truth) (tree : Tree) → (are : AreDirectories volume areas (V.held view.now) (V.hints view.now) truth tree places.now)
        → ComesBy areas truth (between_of tree are.source.file name.now are.target.file new_name.now now) result }
    ensures lacks { (volume : ℕ) (truth : Truth) (tree : Tree) → (are : AreDirectories volume areas (V.held view.now) (V.hints view.now) truth tree places.now)
        → IfErr result (IfFirst (MakesRoomFor areas (V.held view.now) (V.hints view.now) truth places.now.target.inode.tree places.now.target.inode.next (names_of are.source.file.body) name.now (names_of are.target.file.body) new_name.now)) }
    ensures ready { (volume : ℕ) (truth : Truth) (tree : Tree) → (are : AreDirectories volume areas (V.held view.now) (V.hints view.now) truth tree places.now)
        → IfOk result (λ made. ReadyFor areas truth places.now.target.inode.tree places.now.target.inode.next (names_of are.source.file.body) name.now (names_of are.target.file.body) new_name.now) }
    ensures need { IfErr result (NeedsBy areas (V.held view.now) (OnPlaces (V.held view.now) (V.hints view.now) areas places.now name.now new_name.now)) }
    ensures first { IfErr result (HoldsFirst (V.held view.now)) }
    ensures full { IfErr result (IfFull (NoSlots (V.held view.now) (parts_of places.now.target.handle).area areas [])) }
    ensures wanted { (volume : ℕ) (truth : Truth) (tree : Tree) → (are : AreDirectories volume areas (V.held view.now) (V.hints view.now) truth tree places.now)
        → IfErr result (IfFull (λ spare. ReadyFor areas truth places.now.target.inode.tree places.now.target.inode.next (names_of are.source.file.body) name.now (names_of are.target.file.body) new_name.now → ⊥)) }
    ensures held { IfOk result (IsHeldDraft (V.held view.now)) }
{
    match moved_for(alloc, view, areas, &places.source, name) {
        Err(stop) => Err(ChangeError::Stopped(stop)),
        Ok((number, moved)) => {
            let between = Between {
                places,
                number,
                moved: &moved,
                name,
                new_name,
                time: now,
            };
            move_onto(alloc, view, areas, &between)
        }
    }
}
