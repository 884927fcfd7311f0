//! Moves that have been tested, into directories with room for them.

ghost use Rattle.std.specs.Prelude.{◌≡◌, ◌<◌, ◌≤◌, ℕ, [], length, IfErr, IfOk, IfSome};
ghost use Rattle.bx_changes.specs.Procedures.{HoldsFirst, IfFull, IsHeldDraft, NeedsBy, NoSlots, Tree, Truth, parts_of};
ghost use Rattle.bx_linking.specs.Lacking.{FindsBoth, IfFirst, MakesEither};
ghost use Rattle.bx_linking.specs.Drafting.{ComesBy};
ghost use Rattle.bx_renaming.specs.Path.{OnMove};
ghost use Rattle.bx_renaming.specs.Renaming.{AreDirectories, IsPassed, coming_in, move_of, other_file, replaced_by};

use crate::places::{Between, Places};
use bx_changes::ChangeError;
use bx_inodes::Stop;
use bx_linking::entries::{Known, room_for};
use bx_model::DQUOT;
use bx_moving::{Moving, Replaced, move_file};
use bx_records::Draft;
use bx_tree_files::DIRECTORY;
use bx_views::View;
use std::alloc::Global;

/// The greatest number of a directory's next entry, at which it takes no other.
const LAST_NUMBER: u32 = 0xffff_ffff;

/// Makes a move that meets no other error, where the directory that the file comes into has a number left and room for the name: the draft that does so.
///
/// `Need` names a block that isn't held: one on the path to room for the name, or one of the move. The status is `DQUOT` where no number is left. `Inner`
/// and `Full` come as they do of `room_for`.
pub(crate) fn move_in<V: View>(
    alloc: Global,
    view: &V,
    areas: u16,
    between: &Between<'_>,
    moving: Moving,
    replaced: Option<Replaced>,
) -> Result<Draft, ChangeError>
    requires name { length between.now.new_name.now ≤ 255 }
    requires area { IfSome replaced (λ replaced. (parts_of replaced.handle).area < areas) }
    ensures step { (volume : ℕ) (truth : Truth) (tree : Tree) → (are : AreDirectories volume areas (V.held view.now) (V.hints view.now) truth tree between.now.places.now)
        → (passed : IsPassed tree are.source.file are.target.file moving between.now.name.now between.now.new_name.now replaced)
        → ComesBy areas truth (coming_in tree are.source.file between.now.name.now are.target.file between.now.new_name.now passed.moved (other_file tree are.source.file are.target.file moving between.now.name.now between.now.new_name.now replaced passed) between.now.time) result }
    ensures lacks { (volume : ℕ) (truth : Truth) (tree : Tree) → AreDirectories volume areas (V.held view.now) (V.hints view.now) truth tree between.now.places.now
        → IfErr result (IfFirst (MakesEither areas (V.held view.now) (V.hints view.now) truth between.now.places.now.target.inode.tree between.now.new_name.now between.now.places.now.target.inode.next)) }
    ensures finds { (volume : ℕ) (truth : Truth) (tree : Tree) → AreDirectories volume areas (V.held view.now) (V.hints view.now) truth tree between.now.places.now
        → IfOk result (λ made. FindsBoth areas truth between.now.places.now.target.inode.tree between.now.new_name.now between.now.places.now.target.inode.next) }
    ensures need { IfErr result (NeedsBy areas (V.held view.now) (OnMove (V.held view.now) (V.hints view.now) areas between.now.places.now.target moving between.now.name.now between.now.new_name.now replaced)) }
    ensures first { IfErr result (HoldsFirst (V.held view.now)) }
    ensures full { IfErr result (IfFull (NoSlots (V.held view.now) (parts_of between.now.places.now.target.handle).area areas [])) }
    ensures wanted { (volume : ℕ) (truth : Truth) (tree : Tree) → AreDirectories volume areas (V.held view.now) (V.hints view.now) truth tree between.now.places.now
        → IfErr result (IfFull (λ spare. FindsBoth areas truth between.now.places.now.target.inode.tree between.now.new_name.now between.now.places.now.target.inode.next → ⊥)) }
    ensures held { IfOk result (IsHeldDraft (V.held view.now)) }
{
    if between.places.target.inode.next >= LAST_NUMBER {
        return Err(ChangeError::Stopped(Stop::Status(DQUOT)));
    }
    match room_for(alloc, view, areas, &between.places.target, between.new_name) {
        Err(error) => Err(error),
        Ok(()) => {
            let (name, new_name) = (between.name, between.new_name);
            move_file(
                alloc,
                view,
                areas,
                moving,
                replaced,
                name,
                new_name,
                between.time,
            )
        }
    }
}

/// The move of a file between two directories, by the number of its entry.
pub(crate) fn moving_of(places: &Places, number: u32, moved: &Known) -> Moving
    ensures { result ≡ move_of places.now number moved.now }
{
    let from = places.source.handle;
    let to = places.target.handle;
    Moving {
        source: from,
        number,
        target: to,
        handle: moved.handle,
        counts: moved.inode.kind == DIRECTORY && from != to,
    }
}

/// The file whose name is taken, by the number of its entry.
pub(crate) fn replaced_of(number: u32, other: &Known) -> Replaced
    ensures { result ≡ replaced_by number other.now }
{
    Replaced {
        number,
        handle: other.handle,
        is_directory: other.inode.kind == DIRECTORY,
    }
}
