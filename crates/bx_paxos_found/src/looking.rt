//! The disk of a replica, looked at.

ghost use Rattle.std.specs.Prelude.{◌≡◌, ◌<◌, ◌≤◌, ◌⊎◌, IfOk, IfErr, IfSome, IfNone, OnOk, slice_index};
ghost use Rattle.bx_acceptor.specs.Standing.{IsFound, IsNotFound};
ghost use Rattle.bx_calls.specs.Regions.{IsSynced};
ghost use Rattle.bx_cell.specs.Halves.{Found};
ghost use Rattle.bx_disk.specs.Kept.{CountedOn};
ghost use Rattle.bx_facts.specs.Disks.{SameDisks};
ghost use Rattle.bx_facts.specs.Labelled.{IsFirstLabel, IsWhole};
ghost use Rattle.bx_facts.specs.declared.input.OpenError.TheVariants.{Disk as OpenFails, OutOfMemory as WantsMemory};
ghost use Rattle.bx_global.specs.Bytes.{IsHeld};
ghost use Rattle.bx_paxos_found.specs.Finding.{IsSeen};

use crate::labels::{is_of_volume, is_whole};
use bx_cell::{Cell, CellError};
use bx_disk::{DiskFault, Rack};
use bx_facts::OpenError;
use bx_global::Held;
use bx_layout::Label;
use std::alloc::Global;

/// The first sector of the cell, behind the label.
pub(crate) const CELL: u64 = 1;

/// What is seen of a replica that counts.
#[derive(Drop)]
pub struct Seen {
    /// The number of its cell.
    pub number: u64,
    /// What the cell has.
    pub held: Held,
}

/// Makes the disk of a replica sure, and reads its cell; `None` exactly where none can be read.
fn cell_on<R: Rack>(
    alloc: Global,
    rack: &mut R,
    replica: u32,
    devices: u32,
) -> Result<Option<Seen>, OpenError>
    requires { 21 ≤ slice_index (R.state rack.old).sizes replica }
    ensures some { R.tells rack.old → IfOk result (λ seen. IfSome seen (λ x. (found : Found) × (found.number ≡ x.number) × IsFound devices ((R.state rack.old).reads replica) found x.held)) }
    ensures none { R.tells rack.old → IfOk result (λ seen. IfNone seen (IsNotFound devices ((R.state rack.old).reads replica))) }
    ensures held { IfOk result (λ seen. IfSome seen (λ x. IsHeld devices x.held)) }
    ensures sure { R.tells rack.old → OnOk result (IsSynced (R.state rack.new) replica) }
    ensures disks { R.tells rack.old → SameDisks (R.state rack.old) (R.state rack.new) }
    ensures errors { IfErr result (λ e. (e ≡ OpenFails) ⊎ (e ≡ WantsMemory)) }
    ensures rack { CountedOn R.Rack rack.old rack.new replica result OpenFails }
{
    let cell = match Cell::open(alloc, rack, replica, CELL) {
        Ok(cell) => cell,
        Err(CellError::NoCell) => return Ok(None),
        Err(CellError::DiskFault) => return Err(OpenError::Disk),
        Err(CellError::OutOfMemory) => return Err(OpenError::OutOfMemory),
    };
    match Held::read(alloc, cell.get(), devices) {
        Ok(Some(held)) => Ok(Some(Seen {
            number: cell.number(),
            held,
        })),
        Ok(None) => Ok(None),
        Err(_) => Err(OpenError::OutOfMemory),
    }
}

/// Makes the disk of a replica sure if it is whole, and looks at it, where the first label is known: `None` exactly where the replica isn't
/// labelled, or its disk has no cell that can be read. A disk that isn't whole has no label, and isn't touched.
pub(crate) fn look<R: Rack>(
    alloc: Global,
    rack: &mut R,
    first: &Label,
    replica: u32,
    devices: u32,
) -> Result<Option<Seen>, OpenError>
    requires low { replica < 3 }
    ensures seen { R.tells rack.old → IsFirstLabel (R.state rack.old).sizes (R.state rack.old).reads first.now → first.now.devices ≡ devices → IfOk result (IsSeen devices (R.state rack.old).sizes (R.state rack.old).reads replica) }
    ensures held { IfOk result (λ seen. IfSome seen (λ x. IsHeld devices x.held)) }
    ensures sure { R.tells rack.old → OnOk result (IsWhole (R.state rack.old).sizes replica → IsSynced (R.state rack.new) replica) }
    ensures disks { R.tells rack.old → SameDisks (R.state rack.old) (R.state rack.new) }
    ensures errors { IfErr result (λ e. (e ≡ OpenFails) ⊎ (e ≡ WantsMemory)) }
    ensures rack { CountedOn R.Rack rack.old rack.new replica result OpenFails }
{
    if !is_whole(rack, replica) {
        return Ok(None);
    }
    let Some(seen) = cell_on(alloc, rack, replica, devices)? else {
        return Ok(None);
    };
    match is_of_volume(rack, first, replica) {
        Ok(true) => Ok(Some(seen)),
        Ok(false) => Ok(None),
        Err(DiskFault) => Err(OpenError::Disk),
    }
}
