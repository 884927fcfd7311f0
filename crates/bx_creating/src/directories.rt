//! MKDIR.

ghost use Rattle.std.specs.Prelude.{◌≡◌, ◌≤◌, length, Err, IfErr, IfOk};
ghost use Rattle.bx_entries.specs.Lacking.{MakesPlace, NoSlotsNear, ReadyToEnter};
ghost use Rattle.bx_changes.specs.Procedures.{ComesFirst, Hints, HintsFitAll, HoldsFirst, IfFull, IsHeldDraft, IsMaking, NeedsBy, OnVolume, with_draft};
ghost use Rattle.bx_model.specs.Making.{mkdir as mkdir_of};
ghost use Rattle.bx_creating.specs.Making.{OnMaking};
ghost use Rattle.bx_creating.specs.Placing.{IsMadeNear};

use crate::finding::place_for;
use crate::inodes::directory_inode;
use crate::placing::place_new;
use crate::telling::told_of;
use bx_changes::ChangeError;
use bx_inodes::Stop;
use bx_model::{Call, Reply, Sattr};
use bx_records::Draft;
use bx_views::View;
use std::alloc::Global;

/// MKDIR (RFC 1094, section 2.2.15), of a volume with at most 64 areas: the blocks that it changes, the reply, and the number of the handle of the
/// directory that it makes. That is empty, with a name in the directory that a file handle of the volume names.
///
/// `Need` names a block that isn't held: that of the directory's inode, exclusively, or, where that is held, one on the path of the search for the name,
/// shared, one on the path of finding room for its entry, one that the new directory's slots want, exclusively, or one on the path of the entry,
/// exclusively. The status is `STALE`, exactly where the file handle names no file, else `NOTDIR` where that is no directory, `ACCES` of a bad name and
/// where the caller may not change it, `EXIST` where an entry has the name, and `DQUOT` where it has no number left. `Inner` are blocks that make room for
/// the entry: they come exactly where none of these errors does and room is lacking in the directory's tree. `Full` comes behind these, where fewer than 8
/// blocks are free and one more is wanted. `now` is in seconds and microseconds.
pub fn mkdir<V: View>(
    alloc: Global,
    volume: u64,
    areas: u16,
    call: &Call,
    at: &[u8],
    name: &[u8],
    sattr: &Sattr,
    now: (u32, u32),
    view: &V,
) -> Result<(Draft, Reply, u64), ChangeError>
    requires areas { areas ≤ 64 }
    requires name { length name.now ≤ 255 }
    ensures step { OnVolume volume areas (V.held view.now) (V.hints view.now) (λ truth tree. IsMaking volume areas truth tree (mkdir_of tree call.now at.now name.now sattr.now now) result) }
    ensures hints { (other : Hints) → OnVolume volume areas (V.held view.now) (V.hints view.now)
        (λ truth tree. HintsFitAll areas other truth → IfOk result (λ made. HintsFitAll areas other (with_draft truth made.0))) }
    ensures lacks { OnVolume volume areas (V.held view.now) (V.hints view.now)
        (λ truth tree. IfErr result (ComesFirst (λ status. mkdir_of tree call.now at.now name.now sattr.now now 8 ≡ Err status) (MakesPlace volume areas (V.held view.now) (V.hints view.now) truth at.now name.now))) }
    ensures ready { OnVolume volume areas (V.held view.now) (V.hints view.now) (λ truth tree. IfOk result (λ made. ReadyToEnter volume areas truth at.now name.now)) }
    ensures need { IfErr result (NeedsBy areas (V.held view.now) (OnMaking (V.held view.now) (V.hints view.now) volume areas at.now name.now)) }
    ensures full { IfErr result (IfFull (NoSlotsNear volume areas (V.held view.now) at.now)) }
    ensures near { IfOk result (λ made. IsMadeNear volume areas (V.held view.now) at.now made.2) }
    ensures first { IfErr result (HoldsFirst (V.held view.now)) }
    ensures held { IfOk result (λ made. IsHeldDraft (V.held view.now) made.0) }
{
    let directory = match place_for(alloc, volume, areas, call, at, name, view) {
        Err(stop) => return Err(ChangeError::Stopped(stop)),
        Ok(directory) => directory,
    };
    let parent = directory.handle;
    let inode = directory_inode(alloc, call, sattr, now, parent);
    match place_new(alloc, view, areas, directory, name, inode, now) {
        Err(error) => Err(error),
        Ok((draft, made)) => {
            let inode = directory_inode(alloc, call, sattr, now, parent);
            match told_of(alloc, volume, made, &inode) {
                Err(_) => Err(ChangeError::Stopped(Stop::OutOfMemory)),
                Ok(reply) => Ok((draft, reply, made)),
            }
        }
    }
}
