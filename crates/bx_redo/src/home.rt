//! Writes of blocks to their homes.

ghost use Rattle.std.specs.Prelude.{◌≡◌, IfOk};
ghost use Rattle.bx_layout.specs.Blocks.{HasParts, block_text};
ghost use Rattle.bx_places.specs.Places.{IsBlock, IsVolume};
ghost use Rattle.bx_redo.specs.Homes.{home_run};

use bx_base::{OutOfMemory, Raw};
use bx_layout::Block;
use bx_places::{PAYLOAD, SECTOR, place};
use bx_records::Run;
use std::alloc::Global;

/// The write of a block to its home, on a volume of so many devices and areas.
pub fn home_of(
    alloc: Global,
    devices: u32,
    areas: u16,
    at: u64,
    block: &Block,
) -> Result<Run, OutOfMemory>
    requires volume { IsVolume devices areas }
    requires block { IsBlock areas at }
    requires parts { HasParts block.now }
    ensures { IfOk result (λ run. run ≡ home_run devices at block.now) }
{
    let (device, sector) = place(at, devices, areas);
    Ok(Run {
        device,
        place: sector,
        bytes: text_of(alloc, block)?,
    })
}

/// The bytes of a block.
fn text_of(alloc: Global, block: &Block) -> Result<Raw, OutOfMemory>
    requires { HasParts block.now }
    ensures { IfOk result (λ bytes. bytes ≡ block_text block.now) }
{
    let mut bytes = [0; SECTOR + PAYLOAD];
    block.write(&mut bytes);
    Raw::of(alloc, &bytes)
}
