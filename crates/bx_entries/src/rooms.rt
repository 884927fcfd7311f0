//! Room for entries in directories.

ghost use Rattle.std.specs.Prelude.{◌≡◌, ℕ, [], IfErr, IfOk};
ghost use Rattle.bx_changes.specs.Procedures.{HoldsFirst, IfFull, NeedsBy, NoSlots, TakesSlots, Tree, Truth, parts_of};
ghost use Rattle.bx_entries.specs.Finding.{IsDirectoryOf};
ghost use Rattle.bx_layout.specs.declared.inode.Inode.{Inode as Kept};
ghost use Rattle.bx_ready.specs.Lacking.{MakesRoom};
ghost use Rattle.bx_ready.specs.Ready.{OnReadyPath};
ghost use Rattle.bx_truth.specs.Keys.{entry_key, name_key};
ghost use Rattle.bx_entries.specs.RoomFinding.{OnRoomPath, ReadyIn, RoomIn};
ghost use Rattle.bx_entries.specs.Lacking.{FindsBoth, IfFirst, MakesEither};

use crate::Known;
use bx_base::{OutOfMemory, Raw};
use bx_changes::ChangeError;
use bx_inodes::Stop;
use bx_keys::{key_by_name, key_by_number};
use bx_places::ChunkHandle;
use bx_ready::{Target, ready};
use bx_views::View;
use std::alloc::Global;

/// Finds room for an entry with a name and the directory's next number in the tree of a directory, by its inode. Blocks for it are looked for in
/// the directory's area first.
///
/// `Inner` are the blocks that post a separator that is missing above one of the two keys, or split a leaf that has less than 544 bytes left, which
/// are to be written first. They come exactly where one of the two is so: where it goes on, both keys find room. `Need` names a block of the
/// volume that isn't held in that mode, and is on the path of these. `Full` comes only where one of the two is so and
/// no slot is left for a new page; then fewer than 8 are free. The status is `STALE` where what is held is no tree: of a directory it never comes.
pub fn room_for<V: View>(
    alloc: Global,
    view: &V,
    areas: u16,
    directory: &Known,
    name: &[u8],
) -> Result<(), ChangeError>
    ensures step { (volume : ℕ) (truth : Truth) (tree : Tree) → IsDirectoryOf volume areas (V.held view.now) (V.hints view.now) truth tree directory.now.handle directory.now.inode
        → RoomIn areas (V.held view.now) truth directory.now.inode.tree name.now directory.now.inode.next result }
    ensures lacks { (volume : ℕ) (truth : Truth) (tree : Tree) → IsDirectoryOf volume areas (V.held view.now) (V.hints view.now) truth tree directory.now.handle directory.now.inode
        → IfErr result (IfFirst (MakesEither areas (V.held view.now) (V.hints view.now) truth directory.now.inode.tree name.now directory.now.inode.next)) }
    ensures finds { (volume : ℕ) (truth : Truth) (tree : Tree) → IsDirectoryOf volume areas (V.held view.now) (V.hints view.now) truth tree directory.now.handle directory.now.inode
        → IfOk result (λ made. FindsBoth areas truth directory.now.inode.tree name.now directory.now.inode.next) }
    ensures need { IfErr result (NeedsBy areas (V.held view.now) (OnRoomPath (parts_of directory.now.handle).area areas (V.held view.now) (V.hints view.now) directory.now.inode.tree name.now directory.now.inode.next)) }
    ensures first { IfErr result (HoldsFirst (V.held view.now)) }
    ensures taken { IfErr result (IfFirst (TakesSlots (V.held view.now) (parts_of directory.now.handle).area areas [])) }
    ensures full { IfErr result (IfFull (NoSlots (V.held view.now) (parts_of directory.now.handle).area areas [])) }
{
    let Ok((by_name, by_number)) = keys_for(alloc, name, directory.inode.next) else {
        return Err(ChangeError::Stopped(Stop::OutOfMemory));
    };
    let first = Target {
        root: directory.inode.tree,
        key: by_name.bytes(),
        near: ChunkHandle::of(directory.handle).area,
        areas,
    };
    let second = Target {
        key: by_number.bytes(),
        ..first
    };
    match room_at(alloc, view, &first) {
        Err(error) => Err(error),
        Ok(()) => room_at(alloc, view, &second),
    }
}

/// The two keys of an entry: that of its name, and that of its number.
fn keys_for(alloc: Global, name: &[u8], number: u32) -> Result<(Raw, Raw), OutOfMemory>
    ensures { IfOk result (λ keys. (keys.0 ≡ name_key name.now) × (keys.1 ≡ entry_key number)) }
{
    Ok((key_by_name(alloc, name)?, key_by_number(alloc, number)?))
}

/// Finds room for one entry.
fn room_at<V: View>(alloc: Global, view: &V, at: &Target) -> Result<(), ChangeError>
    ensures step { (volume : ℕ) (truth : Truth) (tree : Tree) (handle : ℕ) (inode : Kept) → IsDirectoryOf volume at.now.areas (V.held view.now) (V.hints view.now) truth tree handle inode → inode.tree ≡ at.now.root
        → ReadyIn at.now.areas truth at.now.root at.now.key.now result }
    ensures lacks { (volume : ℕ) (truth : Truth) (tree : Tree) (handle : ℕ) (inode : Kept) → IsDirectoryOf volume at.now.areas (V.held view.now) (V.hints view.now) truth tree handle inode → inode.tree ≡ at.now.root
        → IfErr result (IfFirst (MakesRoom at.now.areas (V.held view.now) (V.hints view.now) truth at.now.root at.now.key.now)) }
    ensures need { IfErr result (NeedsBy at.now.areas (V.held view.now) (OnReadyPath at.now.near at.now.areas (V.held view.now) (V.hints view.now) at.now.root at.now.key.now)) }
    ensures first { IfErr result (HoldsFirst (V.held view.now)) }
    ensures taken { IfErr result (IfFirst (TakesSlots (V.held view.now) at.now.near at.now.areas [])) }
    ensures full { IfErr result (IfFull (NoSlots (V.held view.now) at.now.near at.now.areas [])) }
{
    match ready(alloc, view, at) {
        Err(error) => Err(ChangeError::of_tree(at.areas, error)),
        Ok(Some(draft)) => Err(ChangeError::Stopped(Stop::Inner(draft))),
        Ok(None) => Ok(()),
    }
}
