//! Blocks in their homes.

ghost use Rattle.std.specs.Prelude.{◌≡◌, ◌+◌, ◌<◌, ◌≤◌, length, slice_index, IfOk, IfSome, IfNone};
ghost use Rattle.bx_layout.specs.declared.block.Block.{Block};
ghost use Rattle.bx_places.specs.Places.{IsVolume, IsBlock, block_place, member_sectors};
ghost use Rattle.bx_volume.specs.Images.{devices_of, member_disk};
ghost use Rattle.bx_volume.specs.Overlay.{IsHome};
ghost use Rattle.bx_homes.specs.Standing.{BlockStandsAt};
ghost use Rattle.bx_disk.specs.Kept.{FailsOn};

use bx_calls::read_sectors;
use bx_disk::{Rack, RackError};
use bx_layout::Block;
use bx_places::place;
use std::alloc::Global;

/// The block in a home, read off member A or B (`second`) of its device. `None` exactly where the nine sectors are no block.
pub fn read_home<R: Rack>(
    alloc: Global,
    rack: &mut R,
    devices: u32,
    areas: u16,
    second: bool,
    at: u64,
) -> Result<Option<Block>, RackError>
    requires volume { IsVolume devices areas }
    requires block { IsBlock areas at }
    requires disk { member_disk (block_place at devices).0 second < length (R.state rack.old).sizes }
    requires room { member_sectors devices areas ≤ slice_index (R.state rack.old).sizes (member_disk (block_place at devices).0 second) }
    ensures some { R.tells rack.old → IfOk result (λ found. IfSome found (IsHome (devices_of (R.state rack.old).reads (λ device sector. second)) devices at)) }
    ensures none { R.tells rack.old → IfOk result (λ found. IfNone found ((block : Block) → IsHome (devices_of (R.state rack.old).reads (λ device sector. second)) devices at block → ⊥)) }
    ensures stays { R.state rack.new ≡ R.state rack.old }
    ensures rack { FailsOn R.Rack rack.old rack.new (member_disk (block_place at devices).0 second) result }
{
    let (device, sector) = place(at, devices, areas);
    read_block(alloc, rack, member_disk(device, second), sector)
}

/// The block that nine sectors of a disk are. `None` exactly where they are no block.
pub fn read_block<R: Rack>(
    alloc: Global,
    rack: &mut R,
    disk: u32,
    sector: u64,
) -> Result<Option<Block>, RackError>
    requires disk { disk < length (R.state rack.old).sizes }
    requires room { sector + 9 ≤ slice_index (R.state rack.old).sizes disk }
    ensures some { R.tells rack.old → IfOk result (λ found. IfSome found (BlockStandsAt (R.state rack.old).reads disk sector)) }
    ensures none { R.tells rack.old → IfOk result (λ found. IfNone found ((block : Block) → BlockStandsAt (R.state rack.old).reads disk sector block → ⊥)) }
    ensures stays { R.state rack.new ≡ R.state rack.old }
    ensures rack { FailsOn R.Rack rack.old rack.new disk result }
{
    let mut bytes = [0; 4608];
    read_sectors(rack, disk, sector, &mut bytes)?;
    let found = Block::read(alloc, &bytes)?;
    Ok(found)
}

/// The disk of a device's member A or B (`second`).
pub fn member_disk(device: u32, second: bool) -> u32
    requires { device < 4 }
    ensures { result ≡ member_disk device second }
{
    3 + 2 * device + if second { 1 } else { 0 }
}
