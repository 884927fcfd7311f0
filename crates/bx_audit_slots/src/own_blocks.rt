//! The own blocks of areas.

ghost use Rattle.std.specs.Prelude.{◌<◌, ◌≤◌, All, IfOk, IfSome, IfNone};
ghost use Rattle.bx_audit_slots.specs.OwnBlocks.{AreOwn, HasArea, TellsOwn};
ghost use Rattle.bx_audit_pages.specs.Errors.{IfTorn};
ghost use Rattle.bx_homes.specs.Slots.{StaysSo};
ghost use Rattle.bx_layout.specs.Areas.{SpellsArea};
ghost use Rattle.bx_truth.specs.Chunks.{IsAreaBlock};
ghost use Rattle.bx_audit_pages.specs.Reading.{ReadsChunks};
ghost use Rattle.bx_homes.specs.Reading.{CanRead};

use bx_audit_pages::AuditError;
use bx_base::OutOfMemory;
use bx_homes::Blocks;
use bx_layout::{AreaBlock, Block};
use bx_places::ChunkHandle;
use std::alloc::Global;

/// The kind of an area's own block.
const AREA: u32 = 4;

/// What stands in the place of an area's own block.
#[derive(Drop)]
pub enum OwnBlock {
    /// The area's own block, with these slots.
    Slots(AreaBlock),
    /// Another block, with this handle in its header, or none, and 0.
    Wrong(u64),
}

/// The own blocks of all areas of a volume.
pub fn read_own_blocks<B: Blocks>(
    alloc: Global,
    blocks: &mut B,
    areas: u16,
) -> Result<Vec<OwnBlock>, AuditError>
    requires blocks { CanRead B.Blocks areas blocks.old }
    ensures tells { B.tells blocks.old → IfOk result (λ owns. AreOwn (B.stands blocks.old) areas owns.items) }
    ensures are { IfOk result (λ owns. All HasArea owns.items) }
    ensures never { IfTorn result (λ at found wanted. ⊥) }
    ensures stays { B.tells blocks.old → StaysSo (B.stands blocks.old) (B.stands blocks.new) }
    ensures blocks { ReadsChunks B.Blocks blocks.old blocks.new result }
{
    let mut owns = Vec::new(alloc);
    for area in 0..areas {
        owns.push(own_block(alloc, blocks, area)?)?;
    }
    Ok(owns)
}

/// The own block of an area.
pub(crate) fn own_block<B: Blocks>(
    alloc: Global,
    blocks: &mut B,
    area: u16,
) -> Result<OwnBlock, AuditError>
    requires ready { B.ready blocks.old }
    requires area { area < B.areas blocks.old }
    requires most { B.areas blocks.old ≤ 64 }
    ensures tells { B.tells blocks.old → IfOk result (TellsOwn (B.stands blocks.old) area) }
    ensures is { IfOk result HasArea }
    ensures never { IfTorn result (λ at found wanted. ⊥) }
    ensures stays { B.tells blocks.old → StaysSo (B.stands blocks.old) (B.stands blocks.new) }
    ensures blocks { ReadsChunks B.Blocks blocks.old blocks.new result }
{
    let Some(block) = blocks.block(ChunkHandle::own(area).block())? else {
        return Ok(OwnBlock::Wrong(0));
    };
    match slots_in(alloc, area, &block)? {
        Some(slots) => Ok(OwnBlock::Slots(slots)),
        None => Ok(OwnBlock::Wrong(block.handle)),
    }
}

/// The slots in an area's own block; `None` exactly where the block isn't one.
fn slots_in(alloc: Global, area: u16, block: &Block) -> Result<Option<AreaBlock>, OutOfMemory>
    ensures own { IfOk result (λ found. IfSome found (λ slots. IsAreaBlock area block.now)) }
    ensures spells { IfOk result (λ found. IfSome found (λ slots. SpellsArea slots block.now.payload)) }
    ensures none { IfOk result (λ found. IfNone found (IsAreaBlock area block.now → ⊥)) }
{
    if block.handle != ChunkHandle::own(area).number() || block.kind != AREA {
        return Ok(None);
    }
    AreaBlock::read(alloc, block.payload.bytes())
}
