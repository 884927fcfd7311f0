//! Bytes of a regular file.

ghost use Rattle.std.specs.Prelude.{◌≡◌, ◌+◌, ◌*◌, ◌<◌, ◌≤◌, ◌^◌, ℕ, List, [], drop, length, slice_index, take};
ghost use Rattle.std.specs.Option.{option_copied};
ghost use Rattle.bx_chunks.specs.bx_truth.specs.Chunks.{chunks_of};
ghost use Rattle.bx_chunks.specs.bx_truth.specs.Stored.{HasContents, IsRegular, Owner, Stored, byte_in, piece_of};
ghost use Rattle.bx_views.specs.Truths.{Truth};
ghost use Rattle.bx_inodes.specs.bx_blink.specs.Hints.{Under};
ghost use Rattle.bx_inodes.specs.Stops.{NeedsOn, NeverInner};
ghost use Rattle.bx_files.specs.Paths.{OnPieces, OnRead};
ghost use Rattle.bx_files.specs.Reads.{ArePieces, Tells};

use crate::pieces::{PIECE, piece_at};
use bx_base::Raw;
use bx_inodes::Stop;
use bx_layout::{Block, Inode};
use bx_views::View;
use std::alloc::Global;

/// The most bytes that are read at once.
pub const MOST_BYTES: u32 = 8192;

/// In how many pieces so many bytes are at most.
const MOST_PIECES: usize = 3;

/// The bytes of a regular file from an offset on, at most so many, cut at the file's end, by its inode. A hole is zeros. It looks up
/// each piece that the bytes are in, at most three.
///
/// `Need` names a block of the volume that isn't held, shared: one on the path of the search for such a piece, or the piece's own. The
/// status is `STALE`, where what is held is no file of the volume.
pub fn read<V: View>(
    alloc: Global,
    areas: u16,
    inode: &Inode,
    offset: u32,
    count: u32,
    view: &V,
) -> Result<Raw, Stop>
    requires { count ≤ 8192 }
    ensures file { (truth : Truth) (owner : ℕ → Owner) (handle : ℕ) (stored : Stored) (bytes : List ℕ) → stored.inode ≡ inode.now
        → Under areas (V.held view.now) (V.hints view.now) truth [] stored.inode.tree stored.tree → IsRegular (chunks_of areas truth) owner handle stored bytes
        → Tells (take count (drop offset bytes)) result }
    ensures need { NeedsOn areas (V.held view.now) (OnRead (V.held view.now) (V.hints view.now) inode.now offset count) result }
    ensures inner { NeverInner result }
{
    let start = u64::from(offset).min(inode.size);
    let len = (inode.size - start).min(u64::from(count)) as usize;
    if len == 0 {
        let nothing = Raw::of(alloc, &[])?;
        return Ok(nothing);
    }
    let from = start as usize % PIECE;
    let first = (start / PIECE as u64) as u32;
    let mut pieces = [0; MOST_PIECES * PIECE];
    match fill(
        alloc,
        areas,
        inode.tree,
        first,
        from + len,
        &mut pieces,
        view,
    ) {
        Err(stop) => Err(stop),
        Ok(()) => {
            let bytes = Raw::of(alloc, &pieces[from..from + len])?;
            Ok(bytes)
        }
    }
}

/// Puts the pieces of a file, from one on, as many as so many bytes are in, at most three.
fn fill<V: View>(
    alloc: Global,
    areas: u16,
    root: u64,
    first: u32,
    len: usize,
    into: &mut [u8],
    view: &V,
) -> Result<(), Stop>
    requires long { length into.old ≡ 12288 }
    requires most { len ≤ 12288 }
    requires fits { first + 3 < 2 ^ 32 }
    ensures tree { (truth : Truth) (owner : ℕ → Owner) (handle : ℕ) (stored : Stored) → Under areas (V.held view.now) (V.hints view.now) truth [] root stored.tree
        → HasContents (chunks_of areas truth) owner handle stored → ArePieces (piece_of (chunks_of areas truth) stored.tree) first len into.new result }
    ensures need { NeedsOn areas (V.held view.now) (OnPieces (V.held view.now) (V.hints view.now) root first len) result }
    ensures inner { NeverInner result }
{
    for number in 0..len.div_ceil(PIECE) {
        match piece_at(alloc, areas, view, root, first + number as u32) {
            Err(stop) => return Err(stop),
            Ok(piece) => put_piece(into, number, bytes_of(piece)),
        }
    }
    Ok(())
}

/// The bytes of a piece: none where there is no piece.
fn bytes_of(piece: Option<&Block>) -> &[u8]
    ensures { (place : ℕ) → slice_index result.now place ≡ byte_in (option_copied piece.entry) place }
{
    match piece {
        None => &[],
        Some(block) => block.payload.bytes(),
    }
}

/// Puts bytes in the place of a piece, by its number among the pieces, and zeros behind them.
fn put_piece(into: &mut [u8], number: usize, bytes: &[u8])
    requires { 4096 * number + 4096 ≤ length into.old }
    ensures here { (place : ℕ) → place < 4096 → slice_index into.new (4096 * number + place) ≡ slice_index bytes.now place }
    ensures before { (place : ℕ) → place < 4096 * number → slice_index into.new place ≡ slice_index into.old place }
{
    let at = PIECE * number;
    let part = &bytes[..bytes.len().min(PIECE)];
    let end = at + part.len();
    into[at..end].copy_from_slice(part);
    into[end..at + PIECE].fill(0);
}
