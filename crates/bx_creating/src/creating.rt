//! CREATE.

ghost use Rattle.std.specs.Prelude.{◌≡◌, ◌≤◌, ◌⊎◌, [], length, Err, IfErr, IfOk};
ghost use Rattle.bx_changes.specs.Procedures.{ComesFirst, Exclusive, Hints, HintsFitAll, HoldsFirst, IfFull, IsHeldDraft, IsMaking, LiveAt, NeedsBy, NoSlots, OnVolume, Tree, Truth, entry_named, names_of, parts_of, reads_with, with_draft};
ghost use Rattle.bx_creating.specs.Placing.{IsFirstNear};
ghost use Rattle.bx_model.specs.Making.{create as create_of, create_at};
ghost use Rattle.bx_creating.specs.Paths.{IsNoneOrNear, OnCreate, OnCreating};
ghost use Rattle.bx_creating.specs.Lacking.{NoSlotsNear, PreparesCreate, PreparesFromDirectory, ReadyFromDirectory, ReadyToCreate};
ghost use Rattle.bx_creating.specs.Searching.{IsSearched};

use crate::existing::create_over;
use crate::files::create_new;
use crate::searching::found_in;
use bx_changes::ChangeError;
use bx_entries::{Known, directory_for};
use bx_inodes::Stop;
use bx_model::{Call, Reply, STALE, Sattr, Want};
use bx_places::named_handle;
use bx_records::Draft;
use bx_views::View;
use std::alloc::Global;

/// CREATE (RFC 1094, section 2.2.10), of a volume with at most 64 areas: the blocks that it changes, the reply, and the number of the handle of the file
/// that it makes. Where the name is there, a size that is given is set, and nothing else, and the number is 0.
///
/// `Need` names a block that isn't held: that of the directory's inode, exclusively, or, where that is held, one on the path of the search for the name,
/// shared; where that finds an entry, the block of the inode that it names, exclusively where a size is given, else shared, and then with a size one on the
/// path of clearing bytes that were cut; where it finds none, one that `create_new` needs. The status is `STALE`, exactly where the file handle names no
/// file, else `NOTDIR` where that is no directory, `ACCES` of a bad name and where the caller may not search it; where the name is there `EXIST`, if the file
/// isn't regular, and with a size `ACCES` and `FBIG`; else as it does of `create_new`. `Inner` comes exactly where none of these errors does and
/// something is wanted first: it clears such bytes, where the file would grow over them, or makes room as of `create_new`, as `Full` comes. `now` is in seconds and microseconds.
pub fn create<V: View>(
    alloc: Global,
    volume: u64,
    areas: u16,
    call: &Call,
    at: &[u8],
    name: &[u8],
    sattr: &Sattr,
    now: (u32, u32),
    view: &V,
) -> Result<(Draft, Reply, u64), ChangeError>
    requires areas { areas ≤ 64 }
    requires name { length name.now ≤ 255 }
    ensures step { OnVolume volume areas (V.held view.now) (V.hints view.now) (λ truth tree. IsMaking volume areas truth tree (create_of tree call.now at.now name.now sattr.now now) result) }
    ensures hints { (other : Hints) → OnVolume volume areas (V.held view.now) (V.hints view.now)
        (λ truth tree. HintsFitAll areas other truth → IfOk result (λ made. HintsFitAll areas other (with_draft truth made.0))) }
    ensures lacks { OnVolume volume areas (V.held view.now) (V.hints view.now)
        (λ truth tree. IfErr result (ComesFirst (λ status. create_of tree call.now at.now name.now sattr.now now 8 ≡ Err status) (PreparesCreate volume areas (V.held view.now) (V.hints view.now) truth tree at.now name.now sattr.now.size))) }
    ensures ready { OnVolume volume areas (V.held view.now) (V.hints view.now) (λ truth tree. IfOk result (λ made. ReadyToCreate volume areas truth tree at.now name.now sattr.now.size)) }
    ensures need { IfErr result (NeedsBy areas (V.held view.now) (OnCreate (V.held view.now) (V.hints view.now) volume areas at.now name.now sattr.now.size)) }
    ensures full { IfErr result (IfFull (NoSlotsNear volume areas (V.held view.now) at.now)) }
    ensures near { IfOk result (λ made. IsNoneOrNear volume areas (V.held view.now) at.now made.2) }
    ensures first { IfErr result (HoldsFirst (V.held view.now)) }
    ensures held { IfOk result (λ made. IsHeldDraft (V.held view.now) made.0) }
{
    let Some(handle) = named_handle(volume, at) else {
        return Err(ChangeError::Stopped(Stop::Status(STALE)));
    };
    match directory_for(alloc, view, areas, call, handle, name, Want::Search) {
        Err(stop) => Err(ChangeError::Stopped(stop)),
        Ok(inode) => {
            let directory = Known { handle, inode };
            create_in(
                alloc, volume, areas, call, directory, name, sattr, now, view,
            )
        }
    }
}

/// The same, in a directory, by its inode.
fn create_in<V: View>(
    alloc: Global,
    volume: u64,
    areas: u16,
    call: &Call,
    directory: Known,
    name: &[u8],
    sattr: &Sattr,
    now: (u32, u32),
    view: &V,
) -> Result<(Draft, Reply, u64), ChangeError>
    requires live { LiveAt (reads_with (V.held view.now) (V.hints view.now) []) areas directory.handle Exclusive directory.inode }
    requires name { length name.now ≤ 255 }
    ensures step { (truth : Truth) (tree : Tree) → (is : IsSearched volume areas (V.held view.now) (V.hints view.now) truth tree directory.handle directory.inode name.now)
        → IsMaking volume areas truth tree (λ spare. create_at tree call.now is.directory.at.file name.now sattr.now now spare (entry_named (names_of is.directory.at.file.body) name.now)) result }
    ensures hints { (hints : Hints) (truth : Truth) (tree : Tree) → IsSearched volume areas (V.held view.now) (V.hints view.now) truth tree directory.handle directory.inode name.now
        → HintsFitAll areas hints truth → IfOk result (λ made. HintsFitAll areas hints (with_draft truth made.0)) }
    ensures lacks { (truth : Truth) (tree : Tree) → (is : IsSearched volume areas (V.held view.now) (V.hints view.now) truth tree directory.handle directory.inode name.now)
        → IfErr result (ComesFirst (λ status. create_at tree call.now is.directory.at.file name.now sattr.now now 8 (entry_named (names_of is.directory.at.file.body) name.now) ≡ Err status)
        (PreparesFromDirectory areas (V.held view.now) (V.hints view.now) truth directory.inode.tree directory.inode.next (names_of is.directory.at.file.body) name.now sattr.now.size)) }
    ensures ready { (truth : Truth) (tree : Tree) → (is : IsSearched volume areas (V.held view.now) (V.hints view.now) truth tree directory.handle directory.inode name.now)
        → IfOk result (λ made. ReadyFromDirectory areas truth directory.inode.tree directory.inode.next name.now sattr.now.size (entry_named (names_of is.directory.at.file.body) name.now)) }
    ensures need { IfErr result (NeedsBy areas (V.held view.now) (OnCreating areas (V.held view.now) (V.hints view.now) directory.handle directory.inode name.now sattr.now.size)) }
    ensures full { IfErr result (IfFull (NoSlots (V.held view.now) (parts_of directory.handle).area areas [])) }
    ensures near { IfOk result (λ made. (made.2 ≡ 0) ⊎ IsFirstNear (V.held view.now) (parts_of directory.handle).area areas made.2) }
    ensures first { IfErr result (HoldsFirst (V.held view.now)) }
    ensures held { IfOk result (λ made. IsHeldDraft (V.held view.now) made.0) }
{
    match found_in(alloc, view, areas, directory.inode.tree, name) {
        Err(stop) => Err(ChangeError::Stopped(stop)),
        Ok(found) => match found {
            None => create_new(
                alloc, volume, areas, call, directory, name, sattr, now, view,
            ),
            Some(handle) => match create_over(
                alloc, volume, areas, call, handle, sattr, now, view,
            ) {
                Err(stop) => Err(ChangeError::Stopped(stop)),
                Ok((draft, reply)) => Ok((draft, reply, 0)),
            },
        },
    }
}
