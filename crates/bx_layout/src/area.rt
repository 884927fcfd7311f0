//! The slots of an area.

ghost use Rattle.std.specs.Prelude.{◌≡◌, ◌+◌, ◌≤◌, ◌++◌, length, IfOk, IfSome, IfNone, replicate, slice_index};
ghost use Rattle.std.specs.Int.{w32};
ghost use Rattle.bx_base.specs.Reading.{Gives};
ghost use Rattle.bx_base.specs.Writing.{padded};
ghost use Rattle.bx_layout.specs.Areas.{IsArea, SpellsArea, area_text};
ghost use Rattle.bx_layout.specs.AreaReading.{area_at};
ghost use Rattle.bx_layout.specs.declared.area.AreaBlock.{AreaBlock};

use crate::words::{put_words, words_of};
use bx_base::{OutOfMemory, Raw, ReadError, Words, before_zeros, clear_from, front_at, put};
use bx_places::{PAYLOAD, SLOTS};
use std::alloc::Global;

/// How many bytes have the slots' bits.
const BITS: usize = 120;

/// The payload of an area's own block: what is known of each of its 960 slots.
#[derive(Drop)]
pub struct AreaBlock {
    /// For each slot a word: the highest bit is set where the slot is in use, and the others are its generation.
    pub words: Words,
    /// For each slot a bit, which is set where the slot holds a dead inode that waits for cleaning: bit `s % 8` of byte
    /// `s / 8`, counted from the lowest.
    pub dead: Raw,
}

impl AreaBlock {
    /// The area in which each slot is free in generation 0, and none holds a dead inode.
    pub fn new(alloc: Global) -> Result<AreaBlock, OutOfMemory>
        ensures empty { IfOk result (λ area. area ≡ record { words = replicate 960 0; dead = replicate 120 0 }) }
        ensures is { IfOk result IsArea }
    {
        let mut words = Words::new(alloc);
        for _ in 0..SLOTS {
            words.push(0)?;
        }
        let dead = Raw::of(alloc, &[0; BITS])?;
        Ok(AreaBlock { words, dead })
    }

    /// The area that a payload is; `None` exactly where the bytes are no area's.
    pub fn read(alloc: Global, payload: &[u8]) -> Result<Option<AreaBlock>, OutOfMemory>
        ensures some { IfOk result (λ found. IfSome found (λ area. SpellsArea area payload.now)) }
        ensures none { IfOk result (λ found. IfNone found ((area : AreaBlock) → SpellsArea area payload.now → ⊥)) }
    {
        if payload.len() != PAYLOAD {
            return Ok(None);
        }
        before_zeros(area_of(alloc, payload))
    }

    /// Writes the area into the 4096 bytes of a payload.
    pub fn write(&self, into: &mut [u8])
        requires area { IsArea self.now }
        requires size { length into.old ≡ 4096 }
        ensures { into.new ≡ padded 4096 (area_text self.now) }
    {
        let at = put_words(into, 0, self.words.items());
        let at = put(into, at, self.dead.bytes());
        clear_from(into, at);
    }
}

/// The area at the front, and the bytes behind it.
#[tactic(auto, unfolding(crate::specs::AreaReading::area_at))]
fn area_of(alloc: Global, bytes: &[u8]) -> Result<(AreaBlock, &[u8]), ReadError>
    ensures { Gives (λ x. (x.0, x.1.now)) result (area_at bytes.now) }
{
    let (words, rest) = words_of(alloc, u32::from(SLOTS), bytes)?;
    let (dead, rest) = front_at(rest, BITS)?;
    let dead = Raw::of(alloc, dead)?;
    Ok((AreaBlock { words, dead }, rest))
}
