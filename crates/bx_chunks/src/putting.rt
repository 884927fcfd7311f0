//! A slot's word and its block, put into a draft together.

ghost use Rattle.std.specs.Prelude.{◌≡◌, ◌≢◌, ◌≤◌, ◌↔◌, IfOk, IsTrue, OnOk, OnErr, length};
ghost use Rattle.bx_layout.specs.declared.block.Block.{Block};
ghost use Rattle.bx_layout.specs.Areas.{IsArea};
ghost use Rattle.bx_records.specs.Drafts.{IsDraft, with_block};
ghost use Rattle.bx_truth.specs.Chunks.{own_block};
ghost use Rattle.bx_chunks.specs.Putting.{PutsAs, empty_of, missing, own_of, slot_put};

use crate::areas::{AREA, own_block};
use crate::error::ChunkError;
use bx_base::{OutOfMemory, Raw};
use bx_layout::{AreaBlock, Block};
use bx_places::{ChunkHandle, MOST_BLOCKS, PAYLOAD};
use bx_records::{Draft, DraftError};
use std::alloc::Global;

/// Puts the own block of an area with these slots, and an empty block with this handle and of this kind in one of them. On an error
/// nothing changes.
pub(crate) fn put_slot(
    alloc: Global,
    draft: &mut Draft,
    area: u16,
    slots: &AreaBlock,
    at: u64,
    header: (u64, u32),
) -> Result<(), ChunkError>
    requires area { IsArea slots.now }
    requires apart { at ≢ own_block area }
    ensures puts { PutsAs draft.new (slot_put draft.old area slots.now at header.0 header.1) result }
    ensures room { OnOk result (length draft.new ≤ 16) }
    ensures err { OnErr result (draft.new ≡ draft.old) }
{
    let own_at = own_block(area);
    if !has_room(draft, own_at, at) {
        return Err(ChunkError::Crowded);
    }
    let own = area_block(alloc, area, slots)?;
    let empty = empty_block(alloc, header.0, header.1)?;
    *draft = with_both(alloc, draft, (own_at, own), (at, empty))?;
    Ok(())
}

/// Puts the own block of an area with these slots. On an error nothing changes.
pub fn put_area(
    alloc: Global,
    draft: &mut Draft,
    area: u16,
    slots: &AreaBlock,
) -> Result<(), ChunkError>
    requires { IsArea slots.now }
    ensures puts { PutsAs draft.new (with_block draft.old (own_block area) (own_of area slots.now)) result }
    ensures err { OnErr result (draft.new ≡ draft.old) }
{
    let own = area_block(alloc, area, slots)?;
    match draft.put(own_block(area), own) {
        Ok(()) => Ok(()),
        Err(DraftError::Crowded) => Err(ChunkError::Crowded),
        Err(DraftError::OutOfMemory) => Err(ChunkError::OutOfMemory),
    }
}

/// Whether a draft has at most sixteen blocks once two of them, with different numbers, are put.
fn has_room(draft: &Draft, one: u64, other: u64) -> bool
    requires { other ≢ one }
    ensures { (a b : Block) → IsTrue result ↔ (length (with_block (with_block draft.now one a) other b) ≤ 16) }
{
    draft.blocks().len() + count_missing(draft, one) + count_missing(draft, other) <= MOST_BLOCKS
}

/// 1 where a draft hasn't got a block with a number, else 0.
fn count_missing(draft: &Draft, at: u64) -> usize
    ensures { result ≡ missing draft.now at }
{
    match draft.find(at) {
        Some(_) => 0,
        None => 1,
    }
}

/// A copy of a draft with two blocks put, for which it has room.
fn with_both(
    alloc: Global,
    draft: &Draft,
    one: (u64, Block),
    other: (u64, Block),
) -> Result<Draft, OutOfMemory>
    ensures { IfOk result (λ next. IsDraft draft.now → next ≡ with_block (with_block draft.now one.0 one.1) other.0 other.1) }
{
    let mut next = copy_of(alloc, draft)?;
    put_in(&mut next, one.0, one.1)?;
    put_in(&mut next, other.0, other.1)?;
    Ok(next)
}

/// A copy of a draft.
pub fn copy_of(alloc: Global, draft: &Draft) -> Result<Draft, OutOfMemory>
    ensures { IfOk result (λ copy. IsDraft draft.now → copy ≡ draft.now) }
{
    let mut copy = Draft::new(alloc);
    for (at, block) in draft.blocks() {
        let block = block_copy(alloc, block)?;
        put_in(&mut copy, *at, block)?;
    }
    Ok(copy)
}

/// Puts a block into a draft that has room for it, so that only memory can be wanting.
fn put_in(draft: &mut Draft, at: u64, block: Block) -> Result<(), OutOfMemory>
    ensures { OnOk result (draft.new ≡ with_block draft.old at block) }
{
    match draft.put(at, block) {
        Ok(()) => Ok(()),
        Err(_) => Err(OutOfMemory),
    }
}

/// A copy of a block.
fn block_copy(alloc: Global, block: &Block) -> Result<Block, OutOfMemory>
    ensures { IfOk result (λ copy. copy ≡ block.now) }
{
    let payload = Raw::of(alloc, block.payload.bytes())?;
    Ok(Block {
        handle: block.handle,
        kind: block.kind,
        payload,
    })
}

/// The own block of an area with these slots.
fn area_block(alloc: Global, area: u16, slots: &AreaBlock) -> Result<Block, OutOfMemory>
    requires { IsArea slots.now }
    ensures { IfOk result (λ block. block ≡ own_of area slots.now) }
{
    let mut payload = [0; PAYLOAD];
    slots.write(&mut payload);
    let payload = Raw::of(alloc, &payload)?;
    Ok(Block {
        handle: ChunkHandle::own(area).number(),
        kind: AREA,
        payload,
    })
}

/// A block of zeros.
fn empty_block(alloc: Global, handle: u64, kind: u32) -> Result<Block, OutOfMemory>
    ensures { IfOk result (λ block. block ≡ empty_of handle kind) }
{
    let payload = Raw::of(alloc, &[0; PAYLOAD])?;
    Ok(Block {
        handle,
        kind,
        payload,
    })
}
