//! Writing what an acceptor holds into its cell.

ghost use Rattle.std.specs.Prelude.{◌≡◌, ℕ, ◌+◌, ◌^◌, ◌<◌, ◌≤◌, ◌⊎◌, false, true, slice_index, OnOk, IsErrOf};
ghost use Rattle.bx_disk.specs.Counts.{NoneRose};
ghost use Rattle.bx_disk.specs.Kept.{CountedOn};
ghost use Rattle.bx_calls.specs.Calls.{LeavesOnly};
ghost use Rattle.bx_cell.specs.Images.{EachSure};
ghost use Rattle.bx_cell.specs.Cells.{HasEither, Holds, next, shut, with_value};
ghost use Rattle.bx_facts.specs.declared.input.FactError.TheVariants.{Disk as DiskFails, OutOfMemory as WantsMemory};
ghost use Rattle.bx_global.specs.Bytes.{IsHeld, held_text};
ghost use Rattle.bx_acceptor.specs.Disks.{Writes};
ghost use Rattle.bx_acceptor.specs.Saving.{IsSaved};

use bx_cell::{Cell, CellError};
use bx_disk::Rack;
use bx_facts::FactError;
use bx_global::Held;
use std::alloc::Global;

/// Puts what is held, where it changed. After a fault the cell is shut; so it may be where memory ran out.
pub(crate) fn save<R: Rack>(
    alloc: Global,
    rack: &mut R,
    cell: &mut Cell,
    held: &Held,
    changed: bool,
) -> Result<(), FactError>
    requires held { (devices : ℕ) × IsHeld devices held.now }
    requires ready { cell.old.ready ≡ true }
    requires base { cell.old.base ≡ 1 }
    requires number { changed ≡ true → cell.old.found.number + 1 < 2 ^ 64 }
    requires range { 21 ≤ slice_index (R.state rack.old).sizes cell.old.disk }
    ensures saved { OnOk result (IsSaved changed cell.old (held_text held.now) cell.new) }
    ensures quiet { changed ≡ false → rack.new ≡ rack.old }
    ensures fault { IsErrOf result DiskFails → cell.new ≡ shut cell.old }
    ensures memory { IsErrOf result WantsMemory → (cell.new ≡ cell.old) ⊎ (cell.new ≡ shut cell.old) }
    ensures holds { R.tells rack.old → EachSure (R.state rack.old) (Holds cell.old) → OnOk result (EachSure (R.state rack.new) (Holds cell.new)) }
    ensures any_moment { R.tells rack.old → EachSure (R.state rack.old) (Holds cell.old)
        → LeavesOnly (R.moment rack.old) (R.moment rack.new) (R.left_since rack.old) (R.left_since rack.new) (HasEither (R.state rack.old) cell.old.disk 1 cell.old.found (next cell.old.found (held_text held.now))) }
    ensures either { R.tells rack.old → EachSure (R.state rack.old) (Holds cell.old)
        → EachSure (R.state rack.new) (HasEither (R.state rack.old) cell.old.disk 1 cell.old.found (next cell.old.found (held_text held.now))) }
    ensures disks { R.tells rack.old → Writes (R.state rack.old) (R.state rack.new) (R.moment rack.old) (R.moment rack.new) (R.left_since rack.old) (R.left_since rack.new) cell.old.disk }
    ensures memory_counts { IsErrOf result WantsMemory → NoneRose (R.faults rack.old) (R.faults rack.new) (R.faults_of rack.old) (R.faults_of rack.new) }
    ensures rack { CountedOn R.Rack rack.old rack.new cell.old.disk result DiskFails }
{
    if !changed {
        return Ok(());
    }
    let bytes = held.write(alloc)?;
    match cell.put(rack, bytes.bytes()) {
        Ok(()) => Ok(()),
        Err(CellError::OutOfMemory) => Err(FactError::OutOfMemory),
        Err(CellError::DiskFault | CellError::NoCell) => Err(FactError::Disk),
    }
}
