//! LINK.

ghost use Rattle.std.specs.Prelude.{◌≡◌, ◌≤◌, length, Err, IfErr, IfOk};
ghost use Rattle.bx_entries.specs.Lacking.{MakesPlace, NoSlotsNear, ReadyToEnter};
ghost use Rattle.bx_changes.specs.Procedures.{ComesFirst, HoldsFirst, IfFull, IsChangeBy, IsHeldDraft, KeepsHints, NeedsBy, OnVolume};
ghost use Rattle.bx_model.specs.Making.{link as link_of};
ghost use Rattle.bx_linking.specs.Linking.{OnLink};

use crate::places::link_into;
use bx_base::Mode;
use bx_changes::ChangeError;
use bx_entries::Known;
use bx_inodes::{Stop, inode_at};
use bx_model::{Call, NFS_OK, Reply, STALE};
use bx_places::named_handle;
use bx_records::Draft;
use bx_views::View;
use std::alloc::Global;

/// LINK (RFC 1094, section 2.2.13), of a volume with at most 64 areas: the blocks that it changes, and the reply. The file that a file handle of the
/// volume names gets one more name, of at most 255 bytes, in the directory that another one names.
///
/// `Need` names a block that isn't held: that of the file's inode, exclusively, where that is held that of the directory's, and where both are one on the
/// path of the search for the name, to room for it in the directory's tree, or of the change of that tree. The status is `STALE`, exactly where the first file
/// handle names no file, else where the second names none, `NOTDIR` where that is no directory, `ACCES` of a bad name and where the caller may not change
/// it, `PERM` where the file is a directory, `EXIST` where an entry has the name, and `DQUOT` where the file has 32000 names or the directory no
/// number left. `Inner` are the blocks that make room, which are to be written first: they come exactly where none of these errors does and room is lacking
/// in the directory's tree. `Full` comes exactly as `Inner` does, where no slot is left for that;
/// then fewer than 8 are free. `now` is in seconds and microseconds.
pub fn link<V: View>(
    alloc: Global,
    volume: u64,
    areas: u16,
    call: &Call,
    from: &[u8],
    at: &[u8],
    name: &[u8],
    now: (u32, u32),
    view: &V,
) -> Result<(Draft, Reply), ChangeError>
    requires few { areas ≤ 64 }
    requires name { length name.now ≤ 255 }
    ensures step { OnVolume volume areas (V.held view.now) (V.hints view.now) (λ truth tree. IsChangeBy volume areas truth (λ spare. link_of tree call.now from.now at.now name.now now spare) result) }
    ensures hints { KeepsHints volume areas (V.held view.now) (V.hints view.now) result }
    ensures lacks { OnVolume volume areas (V.held view.now) (V.hints view.now)
        (λ truth tree. IfErr result (ComesFirst (λ status. link_of tree call.now from.now at.now name.now now 8 ≡ Err status) (MakesPlace volume areas (V.held view.now) (V.hints view.now) truth at.now name.now))) }
    ensures ready { OnVolume volume areas (V.held view.now) (V.hints view.now) (λ truth tree. IfOk result (λ made. ReadyToEnter volume areas truth at.now name.now)) }
    ensures need { IfErr result (NeedsBy areas (V.held view.now) (OnLink (V.held view.now) (V.hints view.now) volume areas from.now at.now name.now)) }
    ensures first { IfErr result (HoldsFirst (V.held view.now)) }
    ensures full { IfErr result (IfFull (NoSlotsNear volume areas (V.held view.now) at.now)) }
    ensures wanted { OnVolume volume areas (V.held view.now) (V.hints view.now) (λ truth tree. IfErr result (IfFull (λ spare. ReadyToEnter volume areas truth at.now name.now → ⊥))) }
    ensures held { IfOk result (λ made. IsHeldDraft (V.held view.now) made.0) }
{
    let Some(handle) = named_handle(volume, from) else {
        return Err(ChangeError::Stopped(Stop::Status(STALE)));
    };
    let none = Draft::new(alloc);
    match inode_at(alloc, &none, view, areas, handle, Mode::Exclusive) {
        Err(stop) => Err(ChangeError::Stopped(stop)),
        Ok(inode) => {
            let file = Known { handle, inode };
            match link_into(alloc, volume, areas, call, file, at, name, now, view) {
                Err(error) => Err(error),
                Ok(draft) => Ok((draft, Reply::Status(NFS_OK))),
            }
        }
    }
}
