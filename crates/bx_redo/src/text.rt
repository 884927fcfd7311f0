//! The bytes of a record.

ghost use Rattle.std.specs.Prelude.{◌≡◌, ℕ, ◌+◌, ◌*◌, ◌≤◌, length, IfOk};
ghost use Rattle.std.specs.List.{flat_map, AllByRecursion};
ghost use Rattle.bx_base.specs.Writing.{Writes};
ghost use Rattle.bx_layout.specs.Blocks.{HasParts, block_text};
ghost use Rattle.bx_records.specs.Records.{IsHead};
ghost use Rattle.bx_volume.specs.Records.{IsLogged, logged_text};
ghost use Rattle.bx_redo.specs.Steps.{AreBlocksOf, IsLoggable, record_bytes, record_of};

use bx_base::{Numbers, OutOfMemory, Point, Raw, put};
use bx_layout::Block;
use bx_places::{PAYLOAD, SECTOR};
use bx_records::{Draft, RecordHead};
use std::alloc::Global;

/// How many bytes a block has.
const BLOCK: usize = SECTOR + PAYLOAD;

/// The bytes of the record of a call at a point: its header, and the blocks that it changes.
pub(crate) fn record_text(alloc: Global, point: Point, draft: &Draft) -> Result<Raw, OutOfMemory>
    requires { AreBlocksOf 64 draft.now }
    ensures { IfOk result (λ text. text ≡ logged_text (record_of point draft.now)) }
{
    let blocks = draft.blocks();
    let head = head_of(alloc, point, blocks)?;
    let mut text = vec![in alloc; 0u8; SECTOR + BLOCK * blocks.len()]?;
    put_record(&mut text, &head, blocks);
    Ok(Raw::from(text))
}

/// The record of a call at a point is one of each volume that has the draft's blocks.
pub(crate) fn record_is_logged(point: Point, draft: &Draft)
    requires { AreBlocksOf 64 draft.now }
    ensures { (areas : ℕ) → AreBlocksOf areas draft.now → IsLogged areas (record_of point draft.now) }
{
    let _blocks = draft.blocks();
}

/// Writes a header and the blocks behind it.
fn put_record(into: &mut [u8], head: &RecordHead, blocks: &[(u64, Block)])
    requires size { length into.old ≡ 512 + 4608 * length blocks.now }
    requires head { IsHead head.now }
    requires parts { AllByRecursion (λ change. HasParts change.1) blocks.now }
    ensures { into.new ≡ record_bytes head.now blocks.now }
{
    let (front, behind) = into.split_at_mut(SECTOR);
    head.write(front);
    put_blocks(behind, blocks);
}

/// The header of the record of a call at a point.
fn head_of(alloc: Global, point: Point, blocks: &[(u64, Block)]) -> Result<RecordHead, OutOfMemory>
    requires { IsLoggable blocks.now }
    ensures head { IfOk result (λ head. head ≡ (record_of point blocks.now).head) }
    ensures is { IfOk result IsHead }
{
    let mut numbers = Numbers::new(alloc);
    for (number, _) in blocks {
        numbers.push(*number)?;
    }
    Ok(RecordHead {
        call: point.call,
        moment: point.moment,
        spare: point.spare,
        made: point.made,
        blocks: numbers,
    })
}

/// Writes blocks one after the other.
fn put_blocks(into: &mut [u8], blocks: &[(u64, Block)])
    requires size { length into.old ≡ 4608 * length blocks.now }
    requires parts { AllByRecursion (λ change. HasParts change.1) blocks.now }
    ensures { into.new ≡ flat_map (λ change. block_text change.1) blocks.now }
{
    let mut end = 0;
    for (_, block) in blocks {
        end = put_block(into, end, block);
    }
}

/// Writes a block at a place, and gives the place behind it.
fn put_block(into: &mut [u8], at: usize, block: &Block) -> usize
    requires parts { HasParts block.now }
    requires room { at + 4608 ≤ length into.old }
    ensures { Writes into.old into.new at result (block_text block.now) }
{
    let mut bytes = [0; BLOCK];
    block.write(&mut bytes);
    put(into, at, &bytes)
}
