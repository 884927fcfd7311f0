//! WRITE.

ghost use Rattle.std.specs.Prelude.{◌≡◌, ◌≢◌, ◌+◌, ◌≤◌, ◌<◌, ℕ, List, IfOk, IfErr, IsSome, Err, Some, length};
ghost use Rattle.bx_entries.specs.Lacking.{IfFirst};
ghost use Rattle.bx_changes.specs.Procedures.{ComesFirst, Exclusive, Hints, HintsFitAll, HoldsFirst, IfFull, IsChangeBy, IsHeldDraft, IsInode, IsInodeOf, IsTruth, NeedsBy, Stands, Tree, Truth, block_at as place_of, named, with_draft};
ghost use Rattle.bx_layout.specs.declared.inode.Inode.{Inode as Kept};
ghost use Rattle.bx_model.specs.Writing.{write as write_of};
ghost use Rattle.bx_sizes.specs.Lengths.{grows_over as grows_over_to};
ghost use Rattle.bx_writes.specs.Lacking.{PreparesWriting, PreparesWritten, ReadyToLay, ReadyToWrite};
ghost use Rattle.bx_writes.specs.Near.{IsLaidNear, IsReadiedNear, LaysNear, ReadiesNear};
ghost use Rattle.bx_writes.specs.Paths.{IsFullWriting, LacksSlots, OnFileWritten, OnWriting};
ghost use Rattle.bx_writes.specs.Telling.{TellsWith};

use crate::errors::write_error;
use crate::grown::grown;
use crate::laying::lay;
use bx_base::Mode;
use bx_changes::ChangeError;
use bx_changes::reads::attributes_by;
use bx_files::PIECE;
use bx_inodes::{Stop, inode_at};
use bx_layout::Inode;
use bx_model::{Call, Reply, STALE};
use bx_places::named_handle;
use bx_records::Draft;
use bx_sizes::{clear, grows_over};
use bx_views::View;
use std::alloc::Global;

/// WRITE (RFC 1094, section 2.2.9) of at most 8192 bytes from an offset on, in a volume with so many areas: the blocks that it changes, and the attributes
/// then. No bytes change nothing, and meet no limit. A gap before the offset is zeros.
///
/// `Inner` comes exactly where no error does and something is wanted first: it clears bytes that were cut, where the file would grow over them, and lowers the
/// tail that tells how far they reach; else it makes room for the entry of a piece that isn't there and has none. `Need` names a block that isn't held: the
/// file's inode, exclusively; and where that is held, one on the path of these, or of the pieces that the bytes are in. The status is the first of `STALE`,
/// `ISDIR`, `NXIO` of a link, `ACCES` and `FBIG`; `Full` comes only where a piece that the bytes are in isn't there, and no slot is left near the file;
/// then fewer than 8 are free. A piece that isn't there takes the next slot near the file, and so does a page that makes room. `now` is in seconds and
/// microseconds.
pub fn write<V: View>(
    alloc: Global,
    volume: (u64, u16),
    view: &V,
    call: &Call,
    at: &[u8],
    offset: u32,
    written: &[u8],
    now: (u32, u32),
) -> Result<(Draft, Reply), ChangeError>
    requires { length written.now ≤ 8192 }
    ensures step { (truth : Truth) (tree : Tree) → volume.1 ≤ 64 → IsTruth (V.held view.now) truth → Stands volume.0 volume.1 truth tree → HintsFitAll volume.1 (V.hints view.now) truth
        → IsChangeBy volume.0 volume.1 truth (write_of tree call.now at.now offset written.now now) result }
    ensures hints { (hints : Hints) (truth : Truth) (tree : Tree) → volume.1 ≤ 64 → IsTruth (V.held view.now) truth → Stands volume.0 volume.1 truth tree → HintsFitAll volume.1 (V.hints view.now) truth
        → HintsFitAll volume.1 hints truth → IfOk result (λ made. HintsFitAll volume.1 hints (with_draft truth made.0)) }
    ensures lacks { (truth : Truth) (tree : Tree) → volume.1 ≤ 64 → IsTruth (V.held view.now) truth → Stands volume.0 volume.1 truth tree → HintsFitAll volume.1 (V.hints view.now) truth
        → IfErr result (ComesFirst (λ status. write_of tree call.now at.now offset written.now now 8 ≡ Err status) (PreparesWriting volume.0 volume.1 (V.held view.now) (V.hints view.now) truth at.now offset written.now)) }
    ensures ready { (truth : Truth) (tree : Tree) → volume.1 ≤ 64 → IsTruth (V.held view.now) truth → Stands volume.0 volume.1 truth tree → HintsFitAll volume.1 (V.hints view.now) truth
        → IfOk result (λ made. ReadyToWrite volume.0 volume.1 truth at.now offset written.now) }
    ensures need { IfErr result (NeedsBy volume.1 (V.held view.now) (OnWriting (V.held view.now) (V.hints view.now) volume.0 volume.1 at.now offset written.now)) }
    ensures full { IfErr result (IfFull (IsFullWriting (V.held view.now) (V.hints view.now) volume.0 volume.1 at.now offset written.now)) }
    ensures laid { IfOk result (λ made. IsLaidNear (V.held view.now) (V.hints view.now) volume.0 volume.1 at.now written.now made.0) }
    ensures taken { IfErr result (IfFirst (IsReadiedNear (V.held view.now) (V.hints view.now) volume.0 volume.1 at.now offset written.now)) }
    ensures first { IfErr result (HoldsFirst (V.held view.now)) }
    ensures held { IfOk result (λ made. IsHeldDraft (V.held view.now) made.0) }
{
    let Some(handle) = named_handle(volume.0, at) else {
        return Err(ChangeError::Stopped(Stop::Status(STALE)));
    };
    let none = Draft::new(alloc);
    match inode_at(alloc, &none, view, volume.1, handle, Mode::Exclusive) {
        Err(stop) => Err(ChangeError::Stopped(stop)),
        Ok(inode) => write_file(
            alloc,
            volume,
            view,
            call,
            (handle, inode),
            offset,
            written,
            now,
        ),
    }
}

/// The same of the file with a handle, by its inode.
fn write_file<V: View>(
    alloc: Global,
    volume: (u64, u16),
    view: &V,
    call: &Call,
    file: (u64, Inode),
    offset: u32,
    written: &[u8],
    now: (u32, u32),
) -> Result<(Draft, Reply), ChangeError>
    requires inode { IsInode file.1 }
    requires live { file.1.kind ≢ 0 }
    requires few { length written.now ≤ 8192 }
    ensures step { (truth : Truth) (tree : Tree) (bytes : List ℕ) → volume.1 ≤ 64 → IsTruth (V.held view.now) truth → Stands volume.0 volume.1 truth tree → HintsFitAll volume.1 (V.hints view.now) truth
        → IsInodeOf volume.1 truth tree file.0 file.1 → named volume.0 bytes ≡ Some file.0 → IsChangeBy volume.0 volume.1 truth (write_of tree call.now bytes offset written.now now) result }
    ensures hints { (hints : Hints) (truth : Truth) (tree : Tree) → volume.1 ≤ 64 → IsTruth (V.held view.now) truth → Stands volume.0 volume.1 truth tree → HintsFitAll volume.1 (V.hints view.now) truth
        → IsInodeOf volume.1 truth tree file.0 file.1 → HintsFitAll volume.1 hints truth → IfOk result (λ made. HintsFitAll volume.1 hints (with_draft truth made.0)) }
    ensures lacks { (truth : Truth) (tree : Tree) (bytes : List ℕ) → volume.1 ≤ 64 → IsTruth (V.held view.now) truth → Stands volume.0 volume.1 truth tree → HintsFitAll volume.1 (V.hints view.now) truth
        → IsInodeOf volume.1 truth tree file.0 file.1 → named volume.0 bytes ≡ Some file.0
        → IfErr result (ComesFirst (λ status. write_of tree call.now bytes offset written.now now 8 ≡ Err status) (PreparesWritten volume.1 (V.held view.now) (V.hints view.now) truth file.0 offset written.now)) }
    ensures ready { (truth : Truth) (tree : Tree) (bytes : List ℕ) → volume.1 ≤ 64 → IsTruth (V.held view.now) truth → Stands volume.0 volume.1 truth tree → HintsFitAll volume.1 (V.hints view.now) truth
        → IsInodeOf volume.1 truth tree file.0 file.1 → named volume.0 bytes ≡ Some file.0
        → IfOk result (λ made. 0 < length written.now → ReadyToLay volume.1 truth file.0 offset written.now) }
    ensures need { IfErr result (NeedsBy volume.1 (V.held view.now) (OnFileWritten volume.1 (V.held view.now) (V.hints view.now) file.0 file.1 offset written.now)) }
    ensures full { IfErr result (IfFull (LacksSlots volume.1 (V.held view.now) (V.hints view.now) file.0 file.1 offset written.now)) }
    ensures laid { IfOk result (λ made. LaysNear volume.1 (V.held view.now) (V.hints view.now) file.0 file.1 written.now made.0) }
    ensures taken { IfErr result (IfFirst (ReadiesNear volume.1 (V.held view.now) file.0 file.1 offset written.now)) }
    ensures first { IsSome (V.held view.now (place_of file.0) Exclusive) → IfErr result (HoldsFirst (V.held view.now)) }
    ensures held { IsSome (V.held view.now (place_of file.0) Exclusive) → IfOk result (λ made. IsHeldDraft (V.held view.now) made.0) }
{
    let (handle, inode) = file;
    match write_error(alloc, call, handle, &inode, offset, written.len()) {
        Err(_) => return Err(ChangeError::Stopped(Stop::OutOfMemory)),
        Ok(Some(status)) => return Err(ChangeError::Stopped(Stop::Status(status))),
        Ok(None) => {}
    }
    if written.is_empty() {
        return told(alloc, volume.0, handle, &inode, Draft::new(alloc));
    }
    let end = u64::from(offset) + written.len() as u64;
    if grows_over(&inode, end) {
        match clear(alloc, volume.1, view, handle, inode) {
            Err(stop) => return Err(ChangeError::Stopped(stop)),
            Ok(draft) => return Err(ChangeError::Stopped(Stop::Inner(draft))),
        }
    }
    let changed = grown(inode, end, now);
    let place = (offset / PIECE as u32, offset as usize % PIECE);
    match lay(alloc, volume.1, view, handle, &changed, place, written) {
        Err(error) => Err(error),
        Ok(draft) => told(alloc, volume.0, handle, &changed, draft),
    }
}

/// The draft, and the attributes of the file with a handle, by its inode.
fn told(
    alloc: Global,
    volume: u64,
    handle: u64,
    inode: &Inode,
    draft: Draft,
) -> Result<(Draft, Reply), ChangeError>
    ensures { TellsWith volume handle inode.now draft result }
{
    match attributes_by(alloc, volume, handle, inode) {
        Err(_) => Err(ChangeError::Stopped(Stop::OutOfMemory)),
        Ok(words) => Ok((draft, Reply::Attributes(words))),
    }
}
