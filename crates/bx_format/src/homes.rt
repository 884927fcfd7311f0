//! Blocks that are written into their homes.

ghost use Rattle.std.specs.Prelude.{◌+◌, ◌*◌, ◌<◌, OnOk};
ghost use Rattle.bx_disk.specs.Kept.{Fails};
ghost use Rattle.bx_layout.specs.Blocks.{HasParts};
ghost use Rattle.bx_places.specs.Places.{IsVolume, IsBlock};
ghost use Rattle.bx_truth.specs.Opening.{page_block, root_block};
ghost use Rattle.bx_views.specs.Truths.{Truth};
ghost use Rattle.bx_format.specs.Moments.{IsLabelSector, Spares};
ghost use Rattle.bx_format.specs.Formats.{areas_truth, FitsVolume, HasSizes, HoldsBlocks, KeepsFront, with_chunk};

use crate::blocks::{inode_block, own_block, tree_block};
use bx_calls::write_some;
use bx_disk::{Rack, RackError};
use bx_layout::Block;
use bx_places::place;
use std::alloc::Global;

/// Writes a block into its home on both members of its device.
fn put_home<R: Rack>(
    rack: &mut R,
    devices: u32,
    areas: u16,
    at: u64,
    block: &Block,
) -> Result<(), RackError>
    requires volume { IsVolume devices areas }
    requires sizes { HasSizes (R.state rack.old).sizes devices areas }
    requires there { IsBlock areas at }
    requires parts { HasParts block.now }
    ensures puts { (truth : Truth) → R.tells rack.old → HoldsBlocks (R.state rack.old).reads devices areas truth → OnOk result (HoldsBlocks (R.state rack.new).reads devices areas (with_chunk truth at block.now)) }
    ensures spares { R.tells rack.old → Spares IsLabelSector (R.state rack.old) (R.state rack.new) (R.moment rack.old) (R.moment rack.new) (R.left_since rack.old) (R.left_since rack.new) }
    ensures front { R.tells rack.old → KeepsFront (R.state rack.old) (R.state rack.new) }
    ensures rack { Fails R.Rack rack.old rack.new result }
{
    let (device, sector) = place(at, devices, areas);
    let mut bytes = [0; 4608];
    block.write(&mut bytes);
    write_some(rack, 3 + 2 * device, sector, &bytes)?;
    write_some(rack, 4 + 2 * device, sector, &bytes)?;
    Ok(())
}

/// Writes the own block of each area, where no slot is free but those of the root.
pub(crate) fn write_areas<R: Rack>(
    alloc: Global,
    rack: &mut R,
    devices: u32,
    areas: u16,
) -> Result<(), RackError>
    requires { FitsVolume (R.state rack.old).sizes devices areas }
    ensures blocks { R.tells rack.old → HoldsBlocks (R.state rack.old).reads devices areas (areas_truth 0) → OnOk result (HoldsBlocks (R.state rack.new).reads devices areas (areas_truth areas)) }
    ensures spares { R.tells rack.old → Spares IsLabelSector (R.state rack.old) (R.state rack.new) (R.moment rack.old) (R.moment rack.new) (R.left_since rack.old) (R.left_since rack.new) }
    ensures front { R.tells rack.old → KeepsFront (R.state rack.old) (R.state rack.new) }
    ensures rack { Fails R.Rack rack.old rack.new result }
{
    for area in 0..areas {
        let block = own_block(alloc, area)?;
        put_home(rack, devices, areas, 1024 * u64::from(area) + 960, &block)?;
    }
    Ok(())
}

/// Writes the root's inode and the page of its tree.
pub(crate) fn write_root<R: Rack>(
    alloc: Global,
    rack: &mut R,
    devices: u32,
    areas: u16,
) -> Result<(), RackError>
    requires { FitsVolume (R.state rack.old).sizes devices areas }
    ensures puts { (truth : Truth) → R.tells rack.old → HoldsBlocks (R.state rack.old).reads devices areas truth → OnOk result (HoldsBlocks (R.state rack.new).reads devices areas (with_chunk (with_chunk truth 0 root_block) 1 page_block)) }
    ensures spares { R.tells rack.old → Spares IsLabelSector (R.state rack.old) (R.state rack.new) (R.moment rack.old) (R.moment rack.new) (R.left_since rack.old) (R.left_since rack.new) }
    ensures front { R.tells rack.old → KeepsFront (R.state rack.old) (R.state rack.new) }
    ensures rack { Fails R.Rack rack.old rack.new result }
{
    let inode = inode_block(alloc)?;
    put_home(rack, devices, areas, 0, &inode)?;
    let page = tree_block(alloc)?;
    put_home(rack, devices, areas, 1, &page)?;
    Ok(())
}
