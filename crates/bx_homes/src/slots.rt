//! Whether the slots of a volume are right, as its chunk map asks.

ghost use Rattle.std.specs.Prelude.{◌≡◌, ◌+◌, ◌*◌, ◌^◌, ◌<◌, ◌≤◌, ℕ, true, false, slice_index, IfOk, IfSome, IfNone, IsTrue, IsFalse};
ghost use Rattle.bx_layout.specs.Areas.{IsArea, SpellsArea, generation_in, in_use};
ghost use Rattle.bx_places.specs.Places.{IsBlock};
ghost use Rattle.bx_volume.specs.bx_truth.specs.Chunks.{IsAreaBlock, IsChunked, own_block};
ghost use Rattle.bx_volume.specs.bx_views.specs.Truths.{Truth};
ghost use Rattle.bx_homes.specs.Slots.{AreBlocks, HasBlock, HasArea, HasHandle, HasHeader, IsAreaChunked, IsAreaFault, IsFirstFault, StaysSo, wanted_handle};
ghost use Rattle.bx_homes.specs.Reading.{CanRead, CanReadArea, ReadsBlocks};

use crate::blocks::Blocks;
use bx_base::OutOfMemory;
use bx_disk::RackError;
use bx_layout::{AreaBlock, Block};
use bx_places::{ChunkHandle, SLOTS};
use std::alloc::Global;

/// A block that is not as the slots ask.
#[derive(Clone, Copy, PartialEq, Eq, Debug)]
pub struct WrongBlock {
    /// Its number.
    pub at: u64,
    /// The handle in its header, 0 where no block is there.
    pub found: u64,
    /// The handle that is wanted there: that of its slot, 0 where the slot isn't in use; an area's own for the area's block.
    pub wanted: u64,
}

/// The first block, area by area, that is not as the slots ask: an area's own block, and then the blocks of its slots. `None` exactly
/// where the slots are right. A number that has no block is wrong.
pub fn first_fault<B: Blocks>(
    alloc: Global,
    blocks: &mut B,
    areas: u16,
) -> Result<Option<WrongBlock>, RackError>
    requires blocks { CanRead B.Blocks areas blocks.old }
    ensures none { B.tells blocks.old → IfOk result (λ found. IfNone found ((truth : Truth) → AreBlocks areas (B.stands blocks.old) truth → IsChunked areas truth)) }
    ensures there { B.tells blocks.old → IfOk result (λ found. IfNone found ((at : ℕ) → IsBlock areas at → HasBlock (B.stands blocks.old) at)) }
    ensures some { B.tells blocks.old → IfOk result (λ found. IfSome found (λ wrong. (truth : Truth) → AreBlocks areas (B.stands blocks.old) truth → IsFirstFault areas truth wrong.at)) }
    ensures wrong { B.tells blocks.old → IfOk result (λ found. IfSome found (λ wrong. (truth : Truth) → AreBlocks areas (B.stands blocks.old) truth → IsChunked areas truth → ⊥)) }
    ensures found { B.tells blocks.old → IfOk result (λ found. IfSome found (λ wrong. HasHandle (B.stands blocks.old) wrong.at wrong.found)) }
    ensures wanted { B.tells blocks.old → IfOk result (λ found. IfSome found (λ wrong. (truth : Truth) → AreBlocks areas (B.stands blocks.old) truth → wrong.wanted ≡ wanted_handle truth wrong.at)) }
    ensures stays { B.tells blocks.old → StaysSo (B.stands blocks.old) (B.stands blocks.new) }
    ensures blocks { ReadsBlocks B.Blocks blocks.old blocks.new result }
{
    for area in 0..areas {
        if let Some(wrong) = fault_in(alloc, blocks, area)? {
            return Ok(Some(wrong));
        }
    }
    Ok(None)
}

/// The first wrong block of an area.
fn fault_in<B: Blocks>(
    alloc: Global,
    blocks: &mut B,
    area: u16,
) -> Result<Option<WrongBlock>, RackError>
    requires area { CanReadArea B.Blocks area blocks.old }
    ensures none { B.tells blocks.old → IfOk result (λ found. IfNone found ((truth : Truth) → AreBlocks (B.areas blocks.old) (B.stands blocks.old) truth → IsAreaChunked truth area)) }
    ensures there { B.tells blocks.old → IfOk result (λ found. IfNone found (HasArea (B.stands blocks.old) area)) }
    ensures some { B.tells blocks.old → IfOk result (λ found. IfSome found (λ wrong. (truth : Truth) → AreBlocks (B.areas blocks.old) (B.stands blocks.old) truth → IsAreaFault truth area wrong.at)) }
    ensures found { B.tells blocks.old → IfOk result (λ found. IfSome found (λ wrong. HasHandle (B.stands blocks.old) wrong.at wrong.found)) }
    ensures wanted { B.tells blocks.old → IfOk result (λ found. IfSome found (λ wrong. (truth : Truth) → AreBlocks (B.areas blocks.old) (B.stands blocks.old) truth → wrong.wanted ≡ wanted_handle truth wrong.at)) }
    ensures stays { B.tells blocks.old → StaysSo (B.stands blocks.old) (B.stands blocks.new) }
    ensures blocks { ReadsBlocks B.Blocks blocks.old blocks.new result }
{
    let Some(slots) = slots_of(alloc, blocks, area)? else {
        let wrong = wrong_block(blocks, area, SLOTS, ChunkHandle::own(area).number())?;
        return Ok(Some(wrong));
    };
    for slot in 0..SLOTS {
        if !has_header(blocks, area, &slots, slot)? {
            let wrong = wrong_block(blocks, area, slot, wanted_at(area, &slots, slot))?;
            return Ok(Some(wrong));
        }
    }
    Ok(None)
}

/// The block of a slot, or an area's own, as a wrong one: with the handle in its header, and the one that is wanted there.
fn wrong_block<B: Blocks>(
    blocks: &mut B,
    area: u16,
    slot: u16,
    wanted: u64,
) -> Result<WrongBlock, RackError>
    requires area { CanReadArea B.Blocks area blocks.old }
    requires slot { slot ≤ 960 }
    ensures at { IfOk result (λ wrong. wrong.at ≡ 1024 * area + slot) }
    ensures found { B.tells blocks.old → IfOk result (λ wrong. HasHandle (B.stands blocks.old) wrong.at wrong.found) }
    ensures wanted { IfOk result (λ wrong. wrong.wanted ≡ wanted) }
    ensures stays { B.tells blocks.old → StaysSo (B.stands blocks.old) (B.stands blocks.new) }
    ensures blocks { ReadsBlocks B.Blocks blocks.old blocks.new result }
{
    let at = 1024 * u64::from(area) + u64::from(slot);
    let found = match blocks.block(at)? {
        Some(block) => block.handle,
        None => 0,
    };
    Ok(WrongBlock { at, found, wanted })
}

/// The slots of an area, `None` exactly where its own block isn't one.
fn slots_of<B: Blocks>(
    alloc: Global,
    blocks: &mut B,
    area: u16,
) -> Result<Option<AreaBlock>, RackError>
    requires area { CanReadArea B.Blocks area blocks.old }
    ensures there { B.tells blocks.old → IfOk result (λ found. IfSome found (λ slots. HasBlock (B.stands blocks.old) (own_block area))) }
    ensures own { B.tells blocks.old → IfOk result (λ found. IfSome found (λ slots. (truth : Truth) → AreBlocks (B.areas blocks.old) (B.stands blocks.old) truth → IsAreaBlock area (truth (own_block area)))) }
    ensures spells { B.tells blocks.old → IfOk result (λ found. IfSome found (λ slots. (truth : Truth) → AreBlocks (B.areas blocks.old) (B.stands blocks.old) truth → SpellsArea slots (truth (own_block area)).payload)) }
    ensures is { IfOk result (λ found. IfSome found IsArea) }
    ensures none { B.tells blocks.old → IfOk result (λ found. IfNone found ((truth : Truth) → AreBlocks (B.areas blocks.old) (B.stands blocks.old) truth → IsAreaBlock area (truth (own_block area)) → ⊥)) }
    ensures stays { B.tells blocks.old → StaysSo (B.stands blocks.old) (B.stands blocks.new) }
    ensures blocks { ReadsBlocks B.Blocks blocks.old blocks.new result }
{
    let Some(block) = blocks.block(1024 * u64::from(area) + u64::from(SLOTS))? else {
        return Ok(None);
    };
    let slots = slots_in(alloc, area, &block)?;
    Ok(slots)
}

/// The slots in an area's own block, `None` exactly where the block isn't one.
fn slots_in(alloc: Global, area: u16, block: &Block) -> Result<Option<AreaBlock>, OutOfMemory>
    requires { area < 64 }
    ensures own { IfOk result (λ found. IfSome found (λ slots. IsAreaBlock area block.now)) }
    ensures spells { IfOk result (λ found. IfSome found (λ slots. SpellsArea slots block.now.payload)) }
    ensures none { IfOk result (λ found. IfNone found (IsAreaBlock area block.now → ⊥)) }
{
    if block.handle != ChunkHandle::own(area).number() || block.kind != 4 {
        return Ok(None);
    }
    AreaBlock::read(alloc, block.payload.bytes())
}

/// The handle that the header of a slot's block is to name, 0 for none.
fn wanted_at(area: u16, slots: &AreaBlock, slot: u16) -> u64
    requires area { IsArea slots.now }
    requires slot { slot < 960 }
    ensures used { in_use (slice_index slots.now.words slot) ≡ true → result ≡ area * 2 ^ 48 + slot * 2 ^ 32 + generation_in (slice_index slots.now.words slot) }
    ensures unused { in_use (slice_index slots.now.words slot) ≡ false → result ≡ 0 }
{
    if slots.is_used(slot) {
        (u64::from(area) << 48) + (u64::from(slot) << 32) + u64::from(slots.generation(slot))
    } else {
        0
    }
}

/// Whether the header of a slot's block agrees with the slot's word.
fn has_header<B: Blocks>(
    blocks: &mut B,
    area: u16,
    slots: &AreaBlock,
    slot: u16,
) -> Result<bool, RackError>
    requires ready { B.ready blocks.old }
    requires area { area < B.areas blocks.old }
    requires slots { IsArea slots.now }
    requires slot { slot < 960 }
    ensures there { B.tells blocks.old → IfOk result (λ right. IsTrue right → HasBlock (B.stands blocks.old) (1024 * area + slot)) }
    ensures yes { B.tells blocks.old → IfOk result (λ right. IsTrue right → (truth : Truth) → AreBlocks (B.areas blocks.old) (B.stands blocks.old) truth → SpellsArea slots.now (truth (own_block area)).payload → HasHeader truth (1024 * area + slot)) }
    ensures no { B.tells blocks.old → IfOk result (λ right. IsFalse right → (truth : Truth) → AreBlocks (B.areas blocks.old) (B.stands blocks.old) truth → SpellsArea slots.now (truth (own_block area)).payload → HasHeader truth (1024 * area + slot) → ⊥) }
    ensures stays { B.tells blocks.old → StaysSo (B.stands blocks.old) (B.stands blocks.new) }
    ensures blocks { ReadsBlocks B.Blocks blocks.old blocks.new result }
{
    let Some(block) = blocks.block(1024 * u64::from(area) + u64::from(slot))? else {
        return Ok(false);
    };
    Ok(block.handle == wanted_at(area, slots, slot))
}
