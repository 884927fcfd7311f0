//! Whole bodies, read as values.

ghost use Rattle.std.specs.Prelude.{◌≡◌, ◌≤◌, IfOk, MatchResult};
ghost use Rattle.bx_base.specs.Reading.{Gives};
ghost use Rattle.bx_mirror_packets.specs.DeviceMessages.{IsCopiedBody, IsCopyBody, IsDataBody, IsReadBody, IsWriteBody, IsWroteBody, copied_text, copy_text, data_text, read_text, write_text, wrote_text};
ghost use Rattle.bx_mirror_packets.specs.Reading.{IsText, IsWriteOf, NoText, writing_at};

use crate::message::{CopiedBody, CopyBody, DataBody, ReadBody, WriteBody, WroteBody};
use crate::parts::{extent_of, head_of, piece_of};
use crate::runs::runs_of;
use bx_base::{Raw, ReadError, all_of, u64_at};
use bx_records::Runs;
use std::alloc::Global;

/// The bytes of a sector.
const SECTOR: usize = 512;

/// The write of a kind that the bytes are.
pub(crate) fn write_in(alloc: Global, kind: u8, bytes: &[u8]) -> Result<WriteBody, ReadError>
    requires least { 14 ≤ kind }
    requires most { kind ≤ 18 }
    ensures { MatchResult result (λ x. IsText (IsWriteOf kind) write_text x bytes.now) (λ e. NoText (IsWriteOf kind) write_text e bytes.now) }
{
    let (head, rest) = head_of(bytes)?;
    let (until, runs) = all_of(writing_of(alloc, kind, head.device, rest)?)?;
    Ok(WriteBody {
        session: head.session,
        device: head.device,
        epoch: head.epoch,
        sequence: head.number,
        until,
        runs,
    })
}

/// Until when a write is taken and its runs at the front, and the bytes behind them.
#[tactic(auto, unfolding(crate::specs::Reading::writing_at))]
fn writing_of(
    alloc: Global,
    kind: u8,
    device: u32,
    bytes: &[u8],
) -> Result<((u64, Runs), &[u8]), ReadError>
    ensures value { Gives (λ x. ((x.0.0, x.0.1.1), x.1.now)) result (writing_at device bytes.now) }
    ensures kind { IfOk result (λ x. x.0.1.0 ≡ kind) }
{
    let (until, rest) = u64_at(bytes)?;
    let (runs, rest) = runs_of(alloc, kind, device, rest)?;
    Ok(((until, runs), rest))
}

/// The answer to a write that the bytes are.
pub(crate) fn wrote_in(bytes: &[u8]) -> Result<WroteBody, ReadError>
    ensures { MatchResult result (λ x. IsText IsWroteBody wrote_text x bytes.now) (λ e. NoText IsWroteBody wrote_text e bytes.now) }
{
    let head = all_of(head_of(bytes)?)?;
    Ok(WroteBody {
        session: head.session,
        device: head.device,
        epoch: head.epoch,
        sequence: head.number,
    })
}

/// The read that the bytes are.
pub(crate) fn read_in(bytes: &[u8]) -> Result<ReadBody, ReadError>
    ensures { MatchResult result (λ x. IsText IsReadBody read_text x bytes.now) (λ e. NoText IsReadBody read_text e bytes.now) }
{
    let (head, rest) = head_of(bytes)?;
    let (place, sectors) = all_of(extent_of(rest)?)?;
    Ok(ReadBody {
        session: head.session,
        device: head.device,
        epoch: head.epoch,
        tag: head.number,
        place,
        sectors,
    })
}

/// The answer to a read that the bytes are.
pub(crate) fn data_in(alloc: Global, bytes: &[u8]) -> Result<DataBody, ReadError>
    ensures { MatchResult result (λ x. IsText IsDataBody data_text x bytes.now) (λ e. NoText IsDataBody data_text e bytes.now) }
{
    let (head, rest) = head_of(bytes)?;
    let bytes = Raw::of(alloc, rest)?;
    Ok(DataBody {
        session: head.session,
        device: head.device,
        epoch: head.epoch,
        tag: head.number,
        bytes,
    })
}

/// The piece of a copy that the bytes are.
pub(crate) fn copy_in(alloc: Global, bytes: &[u8]) -> Result<CopyBody, ReadError>
    ensures { MatchResult result (λ x. IsText IsCopyBody copy_text x bytes.now) (λ e. NoText IsCopyBody copy_text e bytes.now) }
{
    let (piece, rest) = piece_of(bytes)?;
    if rest.len() % SECTOR != 0 {
        return Err(ReadError::Malformed);
    }
    let bytes = Raw::of(alloc, rest)?;
    Ok(CopyBody {
        device: piece.device,
        epoch: piece.epoch,
        place: piece.place,
        bytes,
    })
}

/// The answer to a piece of a copy that the bytes are.
pub(crate) fn copied_in(bytes: &[u8]) -> Result<CopiedBody, ReadError>
    ensures { MatchResult result (λ x. IsText IsCopiedBody copied_text x bytes.now) (λ e. NoText IsCopiedBody copied_text e bytes.now) }
{
    let piece = all_of(piece_of(bytes)?)?;
    Ok(CopiedBody {
        device: piece.device,
        epoch: piece.epoch,
        place: piece.place,
    })
}
