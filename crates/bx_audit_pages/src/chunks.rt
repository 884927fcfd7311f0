//! The chunk that a handle names.

ghost use Rattle.std.specs.Prelude.{◌≡◌, IfOk, Some, None};
ghost use Rattle.bx_truth.specs.PageTrees.{Chunks};
ghost use Rattle.bx_audit_pages.specs.Errors.{IfTorn};
ghost use Rattle.bx_audit_pages.specs.Shown.{Shows};
ghost use Rattle.bx_audit_pages.specs.Reading.{ReadsChunks, StillShows};
ghost use Rattle.bx_homes.specs.Reading.{CanRead};

use crate::error::AuditError;
use bx_homes::Blocks;
use bx_layout::Block;
use bx_places::{ChunkHandle, SLOTS};

/// The block that a handle names; torn exactly where it names none.
pub fn chunk_at<B: Blocks>(blocks: &mut B, areas: u16, handle: u64) -> Result<Block, AuditError>
    requires blocks { CanRead B.Blocks areas blocks.old }
    ensures ok { (chunks : Chunks) → Shows (B.tells blocks.old) areas (B.stands blocks.old) chunks → IfOk result (λ block. chunks handle ≡ Some block) }
    ensures torn { (chunks : Chunks) → Shows (B.tells blocks.old) areas (B.stands blocks.old) chunks → IfTorn result (λ at found wanted. chunks handle ≡ None) }
    ensures names { IfTorn result (λ at found names. names ≡ handle) }
    ensures shows { StillShows B.Blocks areas blocks.old blocks.new }
    ensures blocks { ReadsChunks B.Blocks blocks.old blocks.new result }
{
    let name = ChunkHandle::of(handle);
    if handle == 0 || name.area >= areas || name.slot >= SLOTS {
        return Err(AuditError::Torn(0, handle, handle));
    }
    let at = name.block();
    let Some(block) = blocks.block(at)? else {
        return Err(AuditError::Torn(at, 0, handle));
    };
    if block.handle != handle {
        return Err(AuditError::Torn(at, block.handle, handle));
    }
    Ok(block)
}
