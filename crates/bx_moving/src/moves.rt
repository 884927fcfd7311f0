//! Moves of files between directories.

ghost use Rattle.std.specs.Prelude.{◌≡◌, ◌<◌, ◌≤◌, ℕ, List, [], length, IfErr, IfOk, IfSome};
ghost use Rattle.bx_changes.specs.Procedures.{HoldsFirst, IfFull, IsHeldDraft, NeedsBy, NeedsOn, NeverFirst, NeverInner, Tree, Truth, parts_of};
ghost use Rattle.bx_model.specs.Renaming.{changes_parent, renamed};
ghost use Rattle.bx_moving.specs.declared.moves.Moving.{Moving as Move};
ghost use Rattle.bx_moving.specs.Edits.{EditedTo, EditsTo, GrowsTo, HasRoomFor, IsEdited, Rests};
ghost use Rattle.bx_moving.specs.Moves.{IsDying, IsMoving, OnBringing, OnClearingName, OnDying, OnMoving, OnEdited, OnSending, brought, cleared, ended, other_of};

use crate::edits::{Place, leave, lose};
use crate::entries::come;
use crate::settling::settle;
use bx_changes::ChangeError;
use bx_inodes::Stop;
use bx_records::Draft;
use bx_views::View;
use std::alloc::Global;

/// A move of a file from one directory to another, or within one, by their handles.
#[derive(Clone, Copy)]
pub struct Moving {
    /// The directory that the file leaves.
    pub source: u64,
    /// The number of its entry there.
    pub number: u32,
    /// The directory that it comes into.
    pub target: u64,
    /// The file's own handle.
    pub handle: u64,
    /// Whether it is a directory that comes into another one.
    pub counts: bool,
}

/// A file whose name another one takes.
#[derive(Clone, Copy)]
pub struct Replaced {
    /// The number of its entry.
    pub number: u32,
    /// Its handle.
    pub handle: u64,
    /// Whether it is a directory, which has no entries then.
    pub is_directory: bool,
}

/// Moves a file, which gets a new name of at most 255 bytes, and takes it from another file where that has it: the draft that does so. It may move so,
/// and the tree of the directory that it comes into has room for the name. `now` is in seconds and microseconds.
///
/// `Need` names a block of the volume that isn't held exclusively, and is on the path of one of the edits, over what those before changed. The status is
/// `STALE` where the files aren't there: where the file may move so, it never comes.
pub fn move_file<V: View>(
    alloc: Global,
    view: &V,
    areas: u16,
    moving: Moving,
    replaced: Option<Replaced>,
    name: &[u8],
    new_name: &[u8],
    now: (u32, u32),
) -> Result<Draft, ChangeError>
    requires name { length new_name.now ≤ 255 }
    requires area { IfSome replaced (λ replaced. (parts_of replaced.handle).area < areas) }
    ensures step { (truth : Truth) (tree : Tree) → (is : IsMoving areas (V.held view.now) (V.hints view.now) truth tree moving name.now new_name.now replaced)
        → moving.counts ≡ changes_parent is.source.file is.target.file is.moved
        → GrowsTo areas truth [] (renamed now tree is.source.file name.now is.target.file new_name.now is.moved (other_of tree moving is.target.names new_name.now replaced is.other)) result }
    ensures need { IfErr result (NeedsBy areas (V.held view.now) (OnMoving (V.held view.now) (V.hints view.now) areas moving name.now new_name.now replaced)) }
    ensures inner { IfErr result NeverFirst }
    ensures full { IfErr result (IfFull (λ spare. ⊥)) }
    ensures first { IfErr result (HoldsFirst (V.held view.now)) }
    ensures held { IfOk result (IsHeldDraft (V.held view.now)) }
{
    match bring(alloc, view, areas, moving, replaced, new_name, now) {
        Err(error) => Err(error),
        Ok(draft) => match send(alloc, draft, view, areas, moving, replaced, name, now) {
            Err(stop) => Err(ChangeError::Stopped(stop)),
            Ok(draft) => Ok(draft),
        },
    }
}

/// Brings the file into a directory under its new name, which is taken from another file first where that has it.
fn bring<V: View>(
    alloc: Global,
    view: &V,
    areas: u16,
    moving: Moving,
    replaced: Option<Replaced>,
    name: &[u8],
    now: (u32, u32),
) -> Result<Draft, ChangeError>
    requires { length name.now ≤ 255 }
    ensures step { (truth : Truth) (tree : Tree) (old_name : List ℕ) → IsMoving areas (V.held view.now) (V.hints view.now) truth tree moving old_name name.now replaced
        → GrowsTo areas truth [] (brought now tree moving name.now replaced) result }
    ensures need { IfErr result (NeedsBy areas (V.held view.now) (OnEdited (V.held view.now) (V.hints view.now) areas (OnBringing (V.held view.now) (V.hints view.now) areas moving name.now replaced))) }
    ensures inner { IfErr result NeverFirst }
    ensures full { IfErr result (IfFull (λ spare. ⊥)) }
    ensures first { IfErr result (HoldsFirst (V.held view.now)) }
    ensures held { IfOk result (IsHeldDraft (V.held view.now)) }
    ensures edits { IfOk result (IsEdited (V.held view.now) (V.hints view.now) areas) }
    ensures few { IfOk result (λ new. length new ≤ 6) }
{
    match clear(alloc, view, areas, moving.target, replaced, name, now) {
        Err(stop) => Err(ChangeError::Stopped(stop)),
        Ok(draft) => {
            let place = Place {
                directory: moving.target,
                name,
                counts: moving.counts,
                time: now,
            };
            come(alloc, draft, view, areas, &place, moving.handle)
        }
    }
}

/// Takes the entry of a name out of the directory with a handle, where there is one.
fn clear<V: View>(
    alloc: Global,
    view: &V,
    areas: u16,
    target: u64,
    replaced: Option<Replaced>,
    name: &[u8],
    now: (u32, u32),
) -> Result<Draft, Stop>
    ensures step { (truth : Truth) (tree : Tree) (moving : Move) (old_name : List ℕ) → IsMoving areas (V.held view.now) (V.hints view.now) truth tree moving old_name name.now replaced → moving.target ≡ target
        → EditsTo areas truth [] (cleared now tree target name.now replaced) result }
    ensures rooms { (truth : Truth) (tree : Tree) (moving : Move) (old_name : List ℕ) → IsMoving areas (V.held view.now) (V.hints view.now) truth tree moving old_name name.now replaced → moving.target ≡ target
        → IfOk result (λ new. HasRoomFor areas (V.held view.now) truth new target name.now) }
    ensures need { NeedsOn areas (V.held view.now) (OnClearingName (V.held view.now) (V.hints view.now) areas target name.now replaced []) result }
    ensures inner { NeverInner result }
    ensures held { IfOk result (IsHeldDraft (V.held view.now)) }
    ensures edits { IfOk result (IsEdited (V.held view.now) (V.hints view.now) areas) }
    ensures few { IfOk result (λ new. length new ≤ 3) }
{
    let none = Draft::new(alloc);
    match replaced {
        None => Ok(none),
        Some(other) => {
            let place = Place {
                directory: target,
                name,
                counts: other.is_directory,
                time: now,
            };
            leave(alloc, none, view, areas, other.number, &place)
        }
    }
}

/// Takes the file's old name out of the directory that it leaves, tells it of the move, and takes a name from the file that had the new one.
fn send<V: View>(
    alloc: Global,
    draft: Draft,
    view: &V,
    areas: u16,
    moving: Moving,
    replaced: Option<Replaced>,
    name: &[u8],
    now: (u32, u32),
) -> Result<Draft, Stop>
    requires few { length draft ≤ 6 }
    requires area { IfSome replaced (λ replaced. (parts_of replaced.handle).area < areas) }
    ensures step { (truth : Truth) (tree : Tree) (new_name : List ℕ) → (is : IsMoving areas (V.held view.now) (V.hints view.now) truth tree moving name.now new_name replaced)
        → EditedTo areas truth [] draft (brought now tree moving new_name replaced) → moving.counts ≡ changes_parent is.source.file is.target.file is.moved
        → EditsTo areas truth [] (renamed now tree is.source.file name.now is.target.file new_name is.moved (other_of tree moving is.target.names new_name replaced is.other)) result }
    ensures need { IsEdited (V.held view.now) (V.hints view.now) areas draft → NeedsOn areas (V.held view.now) (OnEdited (V.held view.now) (V.hints view.now) areas (OnSending (V.held view.now) (V.hints view.now) areas moving name.now replaced)) result }
    ensures inner { NeverInner result }
    ensures held { IsHeldDraft (V.held view.now) draft → IfOk result (IsHeldDraft (V.held view.now)) }
{
    let number = moving.number;
    let place = Place {
        directory: moving.source,
        name,
        counts: moving.counts,
        time: now,
    };
    match leave(alloc, draft, view, areas, number, &place) {
        Err(stop) => Err(stop),
        Ok(draft) => match settle(alloc, draft, view, areas, moving.handle, moving.target, now) {
            Err(stop) => Err(stop),
            Ok(draft) => end(alloc, draft, view, areas, replaced, now),
        },
    }
}

/// Takes a name from the file that had the new one, where there is one.
fn end<V: View>(
    alloc: Global,
    draft: Draft,
    view: &V,
    areas: u16,
    replaced: Option<Replaced>,
    now: (u32, u32),
) -> Result<Draft, Stop>
    requires few { length draft ≤ 12 }
    requires area { IfSome replaced (λ replaced. (parts_of replaced.handle).area < areas) }
    ensures step { (truth : Truth) (tree : Tree) → Rests areas (V.held view.now) (V.hints view.now) truth draft tree → (is : IsDying tree replaced) → EditsTo areas truth draft (ended now tree replaced is) result }
    ensures need { NeedsOn areas (V.held view.now) (OnDying (V.held view.now) (V.hints view.now) areas replaced draft) result }
    ensures inner { NeverInner result }
    ensures held { IsHeldDraft (V.held view.now) draft → IfOk result (IsHeldDraft (V.held view.now)) }
{
    match replaced {
        None => Ok(draft),
        Some(other) => lose(alloc, draft, view, areas, other.handle, now),
    }
}
