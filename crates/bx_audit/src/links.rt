//! The block that an audit names for a file because of which files are no file tree.

ghost use Rattle.std.specs.Prelude.{◌≡◌, ◌≤◌, IfOk, OnOk, IsErrOf};
ghost use Rattle.bx_audit_owners.specs.bx_audit_slots.specs.Numbers.{IsToldOf};
ghost use Rattle.bx_audit.specs.Blocks.{blocks_of};
ghost use Rattle.bx_base.specs.Faults.{Rose};
ghost use Rattle.bx_disk.specs.declared.fault.RackError.TheVariants.{Fault, OutOfMemory as MemoryRanOut};
ghost use Rattle.bx_homes.specs.Reading.{CanRead, ReadsBlocks};
ghost use Rattle.bx_logs.specs.Members.{AreThere};

use bx_disk::{Rack, RackError};
use bx_homes::Blocks;
use bx_overlay::{Overlaid, VolumeDisks};
use bx_places::{ChunkHandle, SLOTS};
use std::alloc::Global;

/// The number of the block of a handle's slot, and the handle in its header, 0 where no block is there. A handle of no slot of the volume
/// is told as found in block 0.
fn block_on<B: Blocks>(blocks: &mut B, areas: u16, handle: u64) -> Result<(u64, u64), RackError>
    requires blocks { CanRead B.Blocks areas blocks.old }
    ensures tells { B.tells blocks.old → IfOk result (λ told. IsToldOf areas (B.stands blocks.old) handle told.0 told.1) }
    ensures blocks { ReadsBlocks B.Blocks blocks.old blocks.new result }
{
    let name = ChunkHandle::of(handle);
    if name.area >= areas || name.slot >= SLOTS {
        return Ok((0, handle));
    }
    let at = name.block();
    let found = match blocks.block(at)? {
        Some(block) => block.handle,
        None => 0,
    };
    Ok((at, found))
}

/// The same, over the disks of a volume whose labels and logs were read.
pub(crate) fn block_in<R: Rack>(
    alloc: Global,
    rack: &mut R,
    read: &VolumeDisks,
    handle: u64,
) -> Result<(u64, u64), RackError>
    requires { AreThere (R.state rack.old).sizes read.now.members }
    ensures tells { R.tells rack.old → IfOk result (λ told. IsToldOf read.now.members.areas (blocks_of (R.state rack.old) read.now) handle told.0 told.1) }
    ensures stays { R.state rack.new ≡ R.state rack.old }
    ensures cause { IsErrOf result Fault → Rose (R.faults rack.old) (R.faults rack.new) }
    ensures later { R.faults rack.old ≤ R.faults rack.new }
    ensures memory_counts { IsErrOf result MemoryRanOut → R.faults rack.new ≡ R.faults rack.old }
    ensures no_fault { OnOk result (R.faults rack.new ≡ R.faults rack.old) }
    ensures keeps_telling { R.tells rack.old → R.tells rack.new }
{
    let members = read.members;
    let mut blocks = Overlaid::new(alloc, rack, members, read.newest.items());
    block_on(&mut blocks, members.areas, handle)
}
