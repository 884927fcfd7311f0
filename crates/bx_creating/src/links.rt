//! SYMLINK.

ghost use Rattle.std.specs.Prelude.{◌≡◌, ◌≤◌, length, Err, IfErr, IfOk};
ghost use Rattle.bx_entries.specs.Lacking.{MakesPlace, NoSlotsNear, ReadyToEnter};
ghost use Rattle.bx_changes.specs.Procedures.{ComesFirst, Hints, HintsFitAll, HoldsFirst, IfFull, IsHeldDraft, IsMaking, NeedsBy, OnVolume, with_draft};
ghost use Rattle.bx_model.specs.Making.{symlink as symlink_of};
ghost use Rattle.bx_creating.specs.Making.{OnMaking};
ghost use Rattle.bx_creating.specs.Placing.{IsMadeNear};

use crate::finding::place_for;
use crate::inodes::link_inode;
use crate::placing::place_new;
use bx_base::Raw;
use bx_changes::ChangeError;
use bx_inodes::Stop;
use bx_model::{Call, NFS_OK, Reply, Sattr};
use bx_records::Draft;
use bx_views::View;
use std::alloc::Global;

/// SYMLINK (RFC 1094, section 2.2.14), of a volume with at most 64 areas: the blocks that it changes, the reply, and the number of the handle of the link
/// that it makes. That has the path, and a name in the directory that a file handle of the volume names.
///
/// `Need`, `Inner`, `Full` and the status come as they do of MKDIR. `now` is in seconds and microseconds.
pub fn symlink<V: View>(
    alloc: Global,
    volume: u64,
    areas: u16,
    call: &Call,
    at: &[u8],
    name: &[u8],
    path: &[u8],
    sattr: &Sattr,
    now: (u32, u32),
    view: &V,
) -> Result<(Draft, Reply, u64), ChangeError>
    requires areas { areas ≤ 64 }
    requires name { length name.now ≤ 255 }
    requires path { length path.now ≤ 1024 }
    ensures step { OnVolume volume areas (V.held view.now) (V.hints view.now)
        (λ truth tree. IsMaking volume areas truth tree (symlink_of tree call.now at.now name.now path.now sattr.now now) result) }
    ensures hints { (other : Hints) → OnVolume volume areas (V.held view.now) (V.hints view.now)
        (λ truth tree. HintsFitAll areas other truth → IfOk result (λ made. HintsFitAll areas other (with_draft truth made.0))) }
    ensures lacks { OnVolume volume areas (V.held view.now) (V.hints view.now)
        (λ truth tree. IfErr result (ComesFirst (λ status. symlink_of tree call.now at.now name.now path.now sattr.now now 8 ≡ Err status) (MakesPlace volume areas (V.held view.now) (V.hints view.now) truth at.now name.now))) }
    ensures ready { OnVolume volume areas (V.held view.now) (V.hints view.now) (λ truth tree. IfOk result (λ made. ReadyToEnter volume areas truth at.now name.now)) }
    ensures need { IfErr result (NeedsBy areas (V.held view.now) (OnMaking (V.held view.now) (V.hints view.now) volume areas at.now name.now)) }
    ensures full { IfErr result (IfFull (NoSlotsNear volume areas (V.held view.now) at.now)) }
    ensures near { IfOk result (λ made. IsMadeNear volume areas (V.held view.now) at.now made.2) }
    ensures first { IfErr result (HoldsFirst (V.held view.now)) }
    ensures held { IfOk result (λ made. IsHeldDraft (V.held view.now) made.0) }
{
    let directory = match place_for(alloc, volume, areas, call, at, name, view) {
        Err(stop) => return Err(ChangeError::Stopped(stop)),
        Ok(directory) => directory,
    };
    let path = match Raw::of(alloc, path) {
        Err(_) => return Err(ChangeError::Stopped(Stop::OutOfMemory)),
        Ok(path) => path,
    };
    let inode = link_inode(alloc, call, sattr, now, path);
    match place_new(alloc, view, areas, directory, name, inode, now) {
        Err(error) => Err(error),
        Ok((draft, made)) => Ok((draft, Reply::Status(NFS_OK), made)),
    }
}
