//! Headers of records.

ghost use Rattle.std.specs.Prelude.{◌≡◌, IfOk, IfSome, IfNone, length};
ghost use Rattle.bx_layout.specs.bx_base.specs.Reading.{Gives, list_at};
ghost use Rattle.bx_layout.specs.bx_base.specs.Writing.{padded};
ghost use Rattle.bx_records.specs.Records.{IsHead, SpellsHead, head_text};
ghost use Rattle.bx_records.specs.RecordReading.{blocks_at, head_at, number_of_block_at, pair_at};
ghost use Rattle.bx_records.specs.declared.record_head.RecordHead.{RecordHead};

use crate::numbers::put_numbers;
use bx_layout::base::{
    Numbers, OutOfMemory, ReadError, before_zeros, clear_from, put_u32, put_u64, u32_at, u64_at,
};
use bx_layout::places::{MOST_AREAS, MOST_BLOCKS, SECTOR, is_block};
use std::alloc::Global;

/// The first sector of a record's body: the point of the call that it is of, and the blocks behind it.
#[derive(Drop)]
pub struct RecordHead {
    /// The call's number; 0 for a change that is of no call.
    pub call: u64,
    /// When the call acted, in milliseconds.
    pub moment: u64,
    /// How many blocks were free, or 8 where that doesn't matter.
    pub spare: u64,
    /// The number of the handle of the file that it made, or 0.
    pub made: u64,
    /// The numbers of the blocks behind the header, at most 16.
    pub blocks: Numbers,
}

impl RecordHead {
    /// The header that a sector is; `None` exactly where the bytes are no header's.
    pub fn read(alloc: Global, sector: &[u8]) -> Result<Option<RecordHead>, OutOfMemory>
        ensures some { IfOk result (λ found. IfSome found (λ head. SpellsHead head sector.now)) }
        ensures none { IfOk result (λ found. IfNone found ((head : RecordHead) → SpellsHead head sector.now → ⊥)) }
    {
        if sector.len() != SECTOR {
            return Ok(None);
        }
        before_zeros(head_of(alloc, sector))
    }

    /// Writes the header into the 512 bytes of a sector.
    pub fn write(&self, into: &mut [u8])
        requires head { IsHead self.now }
        requires size { length into.old ≡ 512 }
        ensures { into.new ≡ padded 512 (head_text self.now) }
    {
        let at = put_u64(into, 0, self.call);
        let at = put_u64(into, at, self.moment);
        let at = put_u64(into, at, self.spare);
        let at = put_u64(into, at, self.made);
        let blocks = self.blocks.items();
        let at = put_u32(into, at, blocks.len() as u32);
        let at = put_numbers(into, at, blocks);
        clear_from(into, at);
    }
}

/// The number of a block at the front, and the bytes behind it.
#[tactic(auto, unfolding(crate::specs::RecordReading::number_of_block_at))]
fn number_of_block(bytes: &[u8]) -> Result<(u64, &[u8]), ReadError>
    ensures { Gives (λ x. (x.0, x.1.now)) result (number_of_block_at bytes.now) }
{
    let (block, rest) = u64_at(bytes)?;
    if !is_block(block, MOST_AREAS) {
        return Err(ReadError::Malformed);
    }
    Ok((block, rest))
}

/// As many numbers of blocks as are wanted, and the bytes behind them.
fn numbers_of(alloc: Global, count: u32, bytes: &[u8]) -> Result<(Numbers, &[u8]), ReadError>
    ensures { Gives (λ x. (x.0, x.1.now)) result (list_at count number_of_block_at bytes.now) }
{
    let mut found = Numbers::new(alloc);
    let mut rest = bytes;
    for _ in 0..count {
        let (block, after) = number_of_block(rest)?;
        found.push(block)?;
        rest = after;
    }
    Ok((found, rest))
}

/// The count of the blocks and their numbers at the front, and the bytes behind them.
#[tactic(auto, unfolding(crate::specs::RecordReading::blocks_at, crate::specs::RecordReading::count_at))]
fn blocks_of(alloc: Global, bytes: &[u8]) -> Result<(Numbers, &[u8]), ReadError>
    ensures { Gives (λ x. (x.0, x.1.now)) result (blocks_at bytes.now) }
{
    let (count, rest) = u32_at(bytes)?;
    if count > MOST_BLOCKS as u32 {
        return Err(ReadError::Malformed);
    }
    numbers_of(alloc, count, rest)
}

/// Two numbers of 64 bits at the front, and the bytes behind them.
#[tactic(auto, unfolding(crate::specs::RecordReading::pair_at))]
fn pair_of(bytes: &[u8]) -> Result<((u64, u64), &[u8]), ReadError>
    ensures { Gives (λ x. (x.0, x.1.now)) result (pair_at bytes.now) }
{
    let (first, rest) = u64_at(bytes)?;
    let (second, rest) = u64_at(rest)?;
    Ok(((first, second), rest))
}

/// The header at the front, and the bytes behind it.
#[tactic(auto, unfolding(crate::specs::RecordReading::head_at))]
fn head_of(alloc: Global, bytes: &[u8]) -> Result<(RecordHead, &[u8]), ReadError>
    ensures { Gives (λ x. (x.0, x.1.now)) result (head_at bytes.now) }
{
    let ((call, moment), rest) = pair_of(bytes)?;
    let ((spare, made), rest) = pair_of(rest)?;
    let (blocks, rest) = blocks_of(alloc, rest)?;
    let head = RecordHead {
        call,
        moment,
        spare,
        made,
        blocks,
    };
    Ok((head, rest))
}
