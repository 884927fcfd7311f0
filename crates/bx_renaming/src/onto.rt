//! Moves to a name, by what has it.

ghost use Rattle.std.specs.Prelude.{◌≡◌, ◌<◌, ◌≤◌, ◌≢◌, ℕ, [], None, Some, length, IfErr, IfOk};
ghost use Rattle.bx_changes.specs.Procedures.{HoldsFirst, IfFull, IsHeldDraft, NeedsBy, NoSlots, Tree, Truth, entry_named, names_of, parts_of};
ghost use Rattle.bx_linking.specs.Lacking.{FindsBoth, IfFirst, MakesEither};
ghost use Rattle.bx_linking.specs.Drafting.{ComesBy};
ghost use Rattle.bx_model.specs.Renaming.{file_of_entry};
ghost use Rattle.bx_renaming.specs.Found.{IsMoved};
ghost use Rattle.bx_renaming.specs.Lacking.{MakesRoomFor, ReadyFor};
ghost use Rattle.bx_renaming.specs.Path.{OnOnto, OnReplacing, OnTested};
ghost use Rattle.bx_renaming.specs.Renaming.{AreDirectories, moving_onto, moving_so};

use crate::coming::{move_in, moving_of, replaced_of};
use crate::finding::other_for;
use crate::places::Between;
use crate::testing::{depth_error, move_error};
use bx_changes::ChangeError;
use bx_inodes::Stop;
use bx_linking::entries::Known;
use bx_records::Draft;
use bx_views::View;
use std::alloc::Global;

/// Moves a file to a name in the second directory: the draft that does so, which is empty where
/// the name is the file's own.
///
/// `Need` names a block that isn't held: one on the path of the search for the name, shared, or that of the inode that it names, exclusively, or as it
/// is of `move_over`. The status is `STALE` where what has the name isn't there, or else as it is of `move_over`, as `Inner` and `Full` are.
pub(crate) fn move_onto<V: View>(
    alloc: Global,
    view: &V,
    areas: u16,
    between: &Between<'_>,
) -> Result<Draft, ChangeError>
    requires name { length between.now.new_name.now ≤ 255 }
    ensures step { (volume : ℕ) (truth : Truth) (tree : Tree) → (are : AreDirectories volume areas (V.held view.now) (V.hints view.now) truth tree between.now.places.now)
        → (is : IsMoved areas truth tree (names_of are.source.file.body) between.now.name.now between.now.number between.now.moved.now)
        → ComesBy areas truth (λ spare. moving_onto tree are.source.file between.now.name.now are.target.file between.now.new_name.now is.at.file between.now.time spare (file_of_entry tree (entry_named (names_of are.target.file.body) between.now.new_name.now))) result }
    ensures lacks { (volume : ℕ) (truth : Truth) (tree : Tree) → (are : AreDirectories volume areas (V.held view.now) (V.hints view.now) truth tree between.now.places.now)
        → IsMoved areas truth tree (names_of are.source.file.body) between.now.name.now between.now.number between.now.moved.now
        → IfErr result (IfFirst (MakesRoomFor areas (V.held view.now) (V.hints view.now) truth between.now.places.now.target.inode.tree between.now.places.now.target.inode.next (names_of are.source.file.body) between.now.name.now (names_of are.target.file.body) between.now.new_name.now)) }
    ensures ready { (volume : ℕ) (truth : Truth) (tree : Tree) → (are : AreDirectories volume areas (V.held view.now) (V.hints view.now) truth tree between.now.places.now)
        → IsMoved areas truth tree (names_of are.source.file.body) between.now.name.now between.now.number between.now.moved.now
        → IfOk result (λ made. ReadyFor areas truth between.now.places.now.target.inode.tree between.now.places.now.target.inode.next (names_of are.source.file.body) between.now.name.now (names_of are.target.file.body) between.now.new_name.now) }
    ensures need { IfErr result (NeedsBy areas (V.held view.now) (OnOnto (V.held view.now) (V.hints view.now) areas between.now.places.now between.now.number between.now.moved.now between.now.name.now between.now.new_name.now)) }
    ensures first { IfErr result (HoldsFirst (V.held view.now)) }
    ensures full { IfErr result (IfFull (NoSlots (V.held view.now) (parts_of between.now.places.now.target.handle).area areas [])) }
    ensures wanted { (volume : ℕ) (truth : Truth) (tree : Tree) → (are : AreDirectories volume areas (V.held view.now) (V.hints view.now) truth tree between.now.places.now)
        → IsMoved areas truth tree (names_of are.source.file.body) between.now.name.now between.now.number between.now.moved.now
        → IfErr result (IfFull (λ spare. ReadyFor areas truth between.now.places.now.target.inode.tree between.now.places.now.target.inode.next (names_of are.source.file.body) between.now.name.now (names_of are.target.file.body) between.now.new_name.now → ⊥)) }
    ensures held { IfOk result (IsHeldDraft (V.held view.now)) }
{
    match other_for(alloc, view, areas, &between.places.target, between.new_name) {
        Err(stop) => Err(ChangeError::Stopped(stop)),
        Ok(None) => move_free(alloc, view, areas, between),
        Ok(Some((second, other))) => {
            let moved = between.moved;
            if other.handle == moved.handle {
                return Ok(Draft::new(alloc));
            }
            move_over(alloc, view, areas, between, second, &other)
        }
    }
}

/// Moves the file to a name that nobody has.
fn move_free<V: View>(
    alloc: Global,
    view: &V,
    areas: u16,
    between: &Between<'_>,
) -> Result<Draft, ChangeError>
    requires name { length between.now.new_name.now ≤ 255 }
    ensures step { (volume : ℕ) (truth : Truth) (tree : Tree) → (are : AreDirectories volume areas (V.held view.now) (V.hints view.now) truth tree between.now.places.now)
        → (is : IsMoved areas truth tree (names_of are.source.file.body) between.now.name.now between.now.number between.now.moved.now) → entry_named (names_of are.target.file.body) between.now.new_name.now ≡ None
        → ComesBy areas truth (moving_so tree are.source.file between.now.name.now are.target.file between.now.new_name.now is.at.file None between.now.time) result }
    ensures lacks { (volume : ℕ) (truth : Truth) (tree : Tree) → AreDirectories volume areas (V.held view.now) (V.hints view.now) truth tree between.now.places.now
        → IfErr result (IfFirst (MakesEither areas (V.held view.now) (V.hints view.now) truth between.now.places.now.target.inode.tree between.now.new_name.now between.now.places.now.target.inode.next)) }
    ensures finds { (volume : ℕ) (truth : Truth) (tree : Tree) → AreDirectories volume areas (V.held view.now) (V.hints view.now) truth tree between.now.places.now
        → IfOk result (λ made. FindsBoth areas truth between.now.places.now.target.inode.tree between.now.new_name.now between.now.places.now.target.inode.next) }
    ensures need { IfErr result (NeedsBy areas (V.held view.now) (OnTested (V.held view.now) (V.hints view.now) areas between.now.places.now between.now.number between.now.moved.now between.now.name.now between.now.new_name.now None)) }
    ensures first { IfErr result (HoldsFirst (V.held view.now)) }
    ensures full { IfErr result (IfFull (NoSlots (V.held view.now) (parts_of between.now.places.now.target.handle).area areas [])) }
    ensures wanted { (volume : ℕ) (truth : Truth) (tree : Tree) → AreDirectories volume areas (V.held view.now) (V.hints view.now) truth tree between.now.places.now
        → IfErr result (IfFull (λ spare. FindsBoth areas truth between.now.places.now.target.inode.tree between.now.new_name.now between.now.places.now.target.inode.next → ⊥)) }
    ensures held { IfOk result (IsHeldDraft (V.held view.now)) }
{
    match depth_error(alloc, view, areas, between.places, between.moved) {
        Err(stop) => Err(ChangeError::Stopped(stop)),
        Ok(Some(status)) => Err(ChangeError::Stopped(Stop::Status(status))),
        Ok(None) => {
            let moving = moving_of(between.places, between.number, between.moved);
            move_in(alloc, view, areas, between, moving, None)
        }
    }
}

/// Moves the file to a name that another file has, by an entry with a number, which loses it.
///
/// `Need` names a block as it does of `move_error`, or of `move_in`. The status is `PERM` where a directory would come below itself, `NAMETOOLONG` where 512
/// moves to a parent don't lead to the root, `NOTDIR` and `ISDIR` where one of both files is a directory, `NOTEMPTY` where the other has entries, or as it is of
/// `move_in`, as `Inner` and `Full` are.
fn move_over<V: View>(
    alloc: Global,
    view: &V,
    areas: u16,
    between: &Between<'_>,
    second: u32,
    other: &Known,
) -> Result<Draft, ChangeError>
    requires name { length between.now.new_name.now ≤ 255 }
    requires area { (parts_of other.now.handle).area < areas }
    ensures step { (volume : ℕ) (truth : Truth) (tree : Tree) → (are : AreDirectories volume areas (V.held view.now) (V.hints view.now) truth tree between.now.places.now)
        → (is : IsMoved areas truth tree (names_of are.source.file.body) between.now.name.now between.now.number between.now.moved.now) → (had : IsMoved areas truth tree (names_of are.target.file.body) between.now.new_name.now second other.now)
        → other.now.handle ≢ between.now.moved.now.handle → ComesBy areas truth (moving_so tree are.source.file between.now.name.now are.target.file between.now.new_name.now is.at.file (Some had.at.file) between.now.time) result }
    ensures lacks { (volume : ℕ) (truth : Truth) (tree : Tree) → AreDirectories volume areas (V.held view.now) (V.hints view.now) truth tree between.now.places.now
        → IfErr result (IfFirst (MakesEither areas (V.held view.now) (V.hints view.now) truth between.now.places.now.target.inode.tree between.now.new_name.now between.now.places.now.target.inode.next)) }
    ensures finds { (volume : ℕ) (truth : Truth) (tree : Tree) → AreDirectories volume areas (V.held view.now) (V.hints view.now) truth tree between.now.places.now
        → IfOk result (λ made. FindsBoth areas truth between.now.places.now.target.inode.tree between.now.new_name.now between.now.places.now.target.inode.next) }
    ensures need { IfErr result (NeedsBy areas (V.held view.now) (OnReplacing (V.held view.now) (V.hints view.now) areas between.now.places.now between.now.number between.now.moved.now second other.now between.now.name.now between.now.new_name.now)) }
    ensures first { IfErr result (HoldsFirst (V.held view.now)) }
    ensures full { IfErr result (IfFull (NoSlots (V.held view.now) (parts_of between.now.places.now.target.handle).area areas [])) }
    ensures wanted { (volume : ℕ) (truth : Truth) (tree : Tree) → AreDirectories volume areas (V.held view.now) (V.hints view.now) truth tree between.now.places.now
        → IfErr result (IfFull (λ spare. FindsBoth areas truth between.now.places.now.target.inode.tree between.now.new_name.now between.now.places.now.target.inode.next → ⊥)) }
    ensures held { IfOk result (IsHeldDraft (V.held view.now)) }
{
    match move_error(alloc, view, areas, between.places, between.moved, other) {
        Err(stop) => Err(ChangeError::Stopped(stop)),
        Ok(Some(status)) => Err(ChangeError::Stopped(Stop::Status(status))),
        Ok(None) => {
            let moving = moving_of(between.places, between.number, between.moved);
            let replaced = replaced_of(second, other);
            move_in(alloc, view, areas, between, moving, Some(replaced))
        }
    }
}
