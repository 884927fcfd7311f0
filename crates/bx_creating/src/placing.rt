//! New files in directories.

ghost use Rattle.std.specs.Prelude.{◌≡◌, ◌≤◌, ℕ, [], length, IfErr, IfOk, IsSome, OnOk};
ghost use Rattle.bx_entries.specs.Lacking.{FindsBoth, IfFirst, MakesEither};
ghost use Rattle.bx_changes.specs.Procedures.{Exclusive, HoldsFirst, IfFull, IsHeldDraft, IsInode, IsTruth, NeedsBy, NeverFirst, NoSlots, OnSlots, StandsFor, Tree, Truth, block_at, parts_of};
ghost use Rattle.bx_chunks.specs.Allocating.{NeedsFairly};
ghost use Rattle.bx_entries.specs.Finding.{IsDirectoryOf};
ghost use Rattle.bx_entries.specs.bx_making.specs.Made.{MakesIn};
ghost use Rattle.bx_tree_files.specs.declared.file.Body.{Body};
ghost use Rattle.bx_views.specs.Truths.{with_draft};
ghost use Rattle.bx_creating.specs.Finding.{IsPlaceFor};
ghost use Rattle.bx_creating.specs.Inodes.{IsNewBody};
ghost use Rattle.bx_creating.specs.Placing.{IsFirstNear, IsMade, MadeAt, MakesNew, OnPlacing, PlacesIn};

use bx_changes::ChangeError;
use bx_chunks::ChunkError;
use bx_entries::making::{make, make_link};
use bx_entries::{Known, enter, room_for};
use bx_layout::Inode;
use bx_places::ChunkHandle;
use bx_records::Draft;
use bx_tree_files::{DIRECTORY, LINK};
use bx_views::View;
use std::alloc::Global;

/// Makes a file with an inode, and puts an entry of a name for it into a directory, by the directory's inode, which is changed now, in seconds and
/// microseconds: the draft that does so, and the number of the file's handle. Room for the entry is found first; the file's slots are looked for in
/// the directory's area first.
///
/// `Need` names a block of the volume that isn't held: one on the path of `room_for`, one that the file's slots want, exclusively, or one on the path of
/// the entry, exclusively. `Inner` and `Full` come as they do of `room_for`; `Full` also where the volume has no slot left for the file. The status is
/// `STALE` where what is held is no directory into which the entry may come: where it may, it never comes.
pub(crate) fn place_new<V: View>(
    alloc: Global,
    view: &V,
    areas: u16,
    directory: Known,
    name: &[u8],
    inode: Inode,
    now: (u32, u32),
) -> Result<(Draft, u64), ChangeError>
    requires directory { IsInode directory.inode }
    requires name { length name.now ≤ 255 }
    requires inode { IsInode inode }
    ensures step { (volume : ℕ) (truth : Truth) (tree : Tree) (body : Body) → IsPlaceFor volume areas (V.held view.now) (V.hints view.now) truth tree directory.handle directory.inode name.now → IsNewBody inode body
        → PlacesIn areas truth tree directory.handle name.now now inode body result }
    ensures lacks { (volume : ℕ) (truth : Truth) (tree : Tree) → IsDirectoryOf volume areas (V.held view.now) (V.hints view.now) truth tree directory.handle directory.inode
        → IfErr result (IfFirst (MakesEither areas (V.held view.now) (V.hints view.now) truth directory.inode.tree name.now directory.inode.next)) }
    ensures finds { (volume : ℕ) (truth : Truth) (tree : Tree) → IsDirectoryOf volume areas (V.held view.now) (V.hints view.now) truth tree directory.handle directory.inode
        → IfOk result (λ made. FindsBoth areas truth directory.inode.tree name.now directory.inode.next) }
    ensures need { IfErr result (NeedsBy areas (V.held view.now) (OnPlacing areas (V.held view.now) (V.hints view.now) directory.handle directory.inode name.now)) }
    ensures full { IfErr result (IfFull (NoSlots (V.held view.now) (parts_of directory.handle).area areas [])) }
    ensures near { IfOk result (λ made. IsFirstNear (V.held view.now) (parts_of directory.handle).area areas made.1) }
    ensures first { IfErr result (HoldsFirst (V.held view.now)) }
    ensures held { IsSome (V.held view.now (block_at directory.handle) Exclusive) → IfOk result (λ made. IsHeldDraft (V.held view.now) made.0) }
{
    match room_for(alloc, view, areas, &directory, name) {
        Err(error) => return Err(error),
        Ok(()) => {}
    }
    let counts = inode.kind == DIRECTORY;
    let near = ChunkHandle::of(directory.handle).area;
    match make_new(alloc, view, inode, near, areas) {
        Err(error) => Err(error),
        Ok((draft, made)) => match enter(
            alloc, draft, view, areas, directory, name, made, counts, now,
        ) {
            Err(error) => Err(error),
            Ok(draft) => Ok((draft, made)),
        },
    }
}

/// Makes a file with an inode near an area: the draft that does so, and the number of its handle.
fn make_new<V: View>(
    alloc: Global,
    view: &V,
    inode: Inode,
    near: u16,
    areas: u16,
) -> Result<(Draft, u64), ChangeError>
    requires { IsInode inode }
    ensures step { (truth : Truth) (tree : Tree) (body : Body) → areas ≤ 64 → IsTruth (V.held view.now) truth → StandsFor areas truth tree → IsNewBody inode body → MakesNew areas truth tree inode body result }
    ensures need { IfErr result (NeedsBy areas (V.held view.now) (OnSlots (V.held view.now) near areas [])) }
    ensures full { IfErr result (IfFull (NoSlots (V.held view.now) near areas [])) }
    ensures made { IfOk result (λ made. IsMade (V.held view.now) near areas made.0 made.1) }
    ensures inner { IfErr result NeverFirst }
    ensures held { IfOk result (λ made. IsHeldDraft (V.held view.now) made.0) }
    ensures few { IfOk result (λ made. length made.0 ≤ 13) }
{
    let mut draft = Draft::new(alloc);
    match make_kind(alloc, view, &mut draft, inode, (near, areas)) {
        Err(error) => Err(ChangeError::of_chunks(error)),
        Ok(handle) => Ok((draft, handle)),
    }
}

/// The same in a draft: a link, or a file with a tree.
fn make_kind<V: View>(
    alloc: Global,
    view: &V,
    draft: &mut Draft,
    inode: Inode,
    near: (u16, u16),
) -> Result<u64, ChunkError>
    requires { IsInode inode }
    ensures at { MadeAt (V.held view.now) draft.old draft.new inode near.0 near.1 result }
    ensures tree { (truth : Truth) (tree : Tree) (body : Body) → near.1 ≤ 64 → IsTruth (V.held view.now) truth → StandsFor near.1 (with_draft truth draft.old) tree → IsNewBody inode body
        → MakesIn near.1 truth draft.old draft.new tree inode body result }
    ensures fair { NeedsFairly near.1 (V.held view.now) result }
    ensures held { IsHeldDraft (V.held view.now) draft.old → OnOk result (IsHeldDraft (V.held view.now) draft.new) }
{
    if inode.kind == LINK {
        return make_link(alloc, draft, view, &inode, near.0, near.1);
    }
    make(alloc, draft, view, inode, near.0, near.1)
}
