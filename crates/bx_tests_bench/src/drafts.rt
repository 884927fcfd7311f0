//! Blocks that are filled with a byte.

ghost use Rattle.std.specs.Prelude.{◌≡◌, IfOk};
ghost use Rattle.bx_layout.specs.Blocks.{HasParts};
ghost use Rattle.bx_places.specs.Places.{IsBlock};
ghost use Rattle.bx_redo.specs.Steps.{AreBlocksOf};

use crate::bench::stores;
use bx_base::{OutOfMemory, Raw};
use bx_disk::Rack;
use bx_layout::Block;
use bx_places::{is_block, place};
use bx_records::{Draft, DraftError, Run, Runs};
use std::alloc::Global;

/// A block by its number, and the byte that it is filled with.
pub type Bytes = (u64, u8);

/// The kind of the packets that carry homes.
const HOME: u8 = 16;

/// A block of data that is filled with a byte.
fn block_of(alloc: Global, byte: u8) -> Result<Block, OutOfMemory>
    ensures { IfOk result HasParts }
{
    let payload = vec![in alloc; byte; 4096]?;
    Ok(Block {
        handle: 4294967297,
        kind: 3,
        payload: Raw::from(payload),
    })
}

/// Puts a block into a draft of blocks.
fn puts(draft: &mut Draft, at: u64, block: Block) -> Result<(), DraftError>
    requires are { AreBlocksOf 64 draft.old }
    requires number { IsBlock 64 at }
    requires block { HasParts block }
    ensures { AreBlocksOf 64 draft.new }
{
    draft.put(at, block)
}

/// Puts a block that is filled with a byte into a draft of blocks, where there is one with its number.
fn adds(alloc: Global, draft: &mut Draft, at: u64, byte: u8) -> Result<(), DraftError>
    requires { AreBlocksOf 64 draft.old }
    ensures { AreBlocksOf 64 draft.new }
{
    if !is_block(at, 64) {
        return Ok(());
    }
    let block = block_of(alloc, byte)?;
    puts(draft, at, block)
}

/// A draft of such blocks.
pub fn draft_of(alloc: Global, blocks: &[Bytes]) -> Result<Draft, DraftError>
    ensures { IfOk result (AreBlocksOf 64) }
{
    let mut draft = Draft::new(alloc);
    for (at, byte) in blocks {
        adds(alloc, &mut draft, *at, *byte)?;
    }
    Ok(draft)
}

/// The bytes of a block that is filled with a byte.
fn text_of(alloc: Global, byte: u8) -> Result<Raw, OutOfMemory> {
    let mut bytes = [0; 4608];
    block_of(alloc, byte)?.write(&mut bytes);
    Raw::of(alloc, &bytes)
}

/// Writes such blocks into their homes, and says whether that went well.
pub fn go_home<R: Rack>(
    alloc: Global,
    rack: &mut R,
    blocks: &[Bytes],
) -> Result<bool, OutOfMemory> {
    let mut runs = Runs::new(alloc, HOME);
    for (at, byte) in blocks {
        if is_block(*at, 1) {
            let (device, place) = place(*at, 1, 1);
            let bytes = text_of(alloc, *byte)?;
            runs.push(Run {
                device,
                place,
                bytes,
            })?;
        }
    }
    Ok(stores(rack, &runs))
}
