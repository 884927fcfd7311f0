//! Entries that leave directories, and files that lose a name.

ghost use Rattle.std.specs.Prelude.{◌≡◌, ◌+◌, ◌<◌, ◌≤◌, ◌≢◌, ℕ, List, Some, true, false, length, IfOk};
ghost use Rattle.bx_changes.specs.Procedures.{File, IsHeldDraft, Name, NeedsOn, NeverInner, Tree, Truth, entry_named, file_at, parts_of};
ghost use Rattle.bx_model.specs.Edits.{changed};
ghost use Rattle.bx_model.specs.Opening.{root_handle};
ghost use Rattle.bx_model.specs.Removing.{has_entries};
ghost use Rattle.bx_tree_files.specs.declared.file.Body.TheVariants.{Names};
ghost use Rattle.bx_tree_files.specs.Changes.{taken_out};
ghost use Rattle.bx_tree_files.specs.Files.{is_directory};
ghost use Rattle.bx_entries.specs.Unlinking.{without_name_of};
ghost use Rattle.bx_moving.specs.Edits.{EditsTo, HasRoomFor, IsEdited, OnLeaving, OnLosing, Rests};

use bx_base::Mode;
use bx_entries::{Known, take_entry, unlink};
use bx_inodes::{Stop, inode_at};
use bx_records::Draft;
use bx_views::View;
use std::alloc::Global;

/// Where an entry comes or goes.
#[derive(Drop)]
pub struct Place<'a> {
    /// The handle of the directory.
    pub directory: u64,
    /// The name of the entry.
    pub name: &'a [u8],
    /// Whether it counts among the directory's links.
    pub counts: bool,
    /// When the directory is changed, in seconds and microseconds.
    pub time: (u32, u32),
}

/// Takes the entry with a number and its name out of a directory: the draft with that. The directory has a link less where the entry counts as one.
/// Room that its tree has for another entry stays.
///
/// `Need` names the block of the directory's inode, exclusively, or one on the path of the two changes of its tree over the draft. The status is `STALE`
/// where there is no such entry: of one that is there it never comes.
pub fn leave<V: View>(
    alloc: Global,
    draft: Draft,
    view: &V,
    areas: u16,
    number: u32,
    place: &Place<'_>,
) -> Result<Draft, Stop>
    requires { length draft ≤ 12 }
    ensures step { (truth : Truth) (tree : Tree) (file : File) (parent next : ℕ) (names : List Name) (entry : Name) → Rests areas (V.held view.now) (V.hints view.now) truth draft tree
        → file_at tree.files place.now.directory ≡ Some file → file.body ≡ Names parent next names → file.kind ≡ 2 → entry_named names place.now.name.now ≡ Some entry → entry.number ≡ number
        → EditsTo areas truth draft (changed tree place.now.directory (taken_out place.now.time place.now.name.now place.now.counts)) result }
    ensures rooms { (truth : Truth) (tree : Tree) (file : File) (parent next : ℕ) (names : List Name) (entry : Name) (other : List ℕ) → Rests areas (V.held view.now) (V.hints view.now) truth draft tree
        → file_at tree.files place.now.directory ≡ Some file → file.body ≡ Names parent next names → file.kind ≡ 2 → entry_named names place.now.name.now ≡ Some entry → entry.number ≡ number
        → HasRoomFor areas (V.held view.now) truth draft place.now.directory other → IfOk result (λ new. HasRoomFor areas (V.held view.now) truth new place.now.directory other) }
    ensures need { NeedsOn areas (V.held view.now) (OnLeaving (V.held view.now) (V.hints view.now) areas draft place.now.directory number place.now.name.now) result }
    ensures inner { NeverInner result }
    ensures held { IsHeldDraft (V.held view.now) draft → IfOk result (IsHeldDraft (V.held view.now)) }
    ensures edits { IsEdited (V.held view.now) (V.hints view.now) areas draft → IfOk result (IsEdited (V.held view.now) (V.hints view.now) areas) }
    ensures few { IfOk result (λ new. length new ≤ length draft + 3) }
{
    match inode_at(alloc, &draft, view, areas, place.directory, Mode::Exclusive) {
        Err(stop) => Err(stop),
        Ok(inode) => {
            let known = Known {
                handle: place.directory,
                inode,
            };
            let (name, counts) = (place.name, place.counts);
            take_entry(
                alloc, draft, view, areas, known, number, name, counts, place.time,
            )
        }
    }
}

/// Takes a name from the file with a handle, which is changed now, in seconds and microseconds: the draft with that. The file dies with its last name,
/// and so does a directory, which has no entries.
///
/// `Need` names the block of the file's inode, exclusively, or the own block of its area. The status is `STALE` where there is no such file: of one that
/// is there it never comes.
pub fn lose<V: View>(
    alloc: Global,
    draft: Draft,
    view: &V,
    areas: u16,
    handle: u64,
    now: (u32, u32),
) -> Result<Draft, Stop>
    requires few { length draft ≤ 12 }
    requires area { (parts_of handle).area < areas }
    ensures step { (truth : Truth) (tree : Tree) (file : File) → Rests areas (V.held view.now) (V.hints view.now) truth draft tree
        → file_at tree.files handle ≡ Some file → (is_directory file ≡ true → has_entries file ≡ false) → handle ≢ root_handle
        → EditsTo areas truth draft (without_name_of now tree handle file) result }
    ensures need { NeedsOn areas (V.held view.now) (OnLosing (V.held view.now) (V.hints view.now) areas draft handle) result }
    ensures inner { NeverInner result }
    ensures held { IsHeldDraft (V.held view.now) draft → IfOk result (IsHeldDraft (V.held view.now)) }
{
    match inode_at(alloc, &draft, view, areas, handle, Mode::Exclusive) {
        Err(stop) => Err(stop),
        Ok(inode) => {
            let mut draft = draft;
            match unlink(alloc, &mut draft, view, handle, inode, now) {
                Err(stop) => Err(stop),
                Ok(()) => Ok(draft),
            }
        }
    }
}
