//! What an acceptor begins with.

ghost use Rattle.std.specs.Prelude.{◌≡◌, ℕ, ◌+◌, ◌^◌, ◌<◌, ◌≤◌, ◌↔◌, IfNone, IfOk, IfSome, IsErrOf, IsTrue, OnOk, Some, slice_index};
ghost use Rattle.bx_disk.specs.Counts.{NoneRose};
ghost use Rattle.bx_disk.specs.Kept.{CountedOn};
ghost use Rattle.bx_calls.specs.Regions.{IsSynced};
ghost use Rattle.bx_cell.specs.Cells.{Holds};
ghost use Rattle.bx_cell.specs.Images.{EachSure};
ghost use Rattle.bx_facts.specs.declared.input.FactError.TheVariants.{Disk as DiskFails, OutOfMemory as MemoryFails};
ghost use Rattle.bx_global.specs.Allowed.{IsAllowed};
ghost use Rattle.bx_global.specs.Bytes.{IsHeld, held_text};
ghost use Rattle.bx_acceptor.specs.Disks.{Syncs};
ghost use Rattle.bx_answers.specs.Handling.{first_held};
ghost use Rattle.bx_acceptor.specs.Standing.{CatchesUp, IsAsFound, IsFound, IsNotFound, TakesPart};
ghost use Rattle.bx_acceptor.specs.Starting.{HoldsOf, IsCellAt, StandsSo, StartsWith};

use crate::origin::Origin;
use bx_answers::{catch_up, first_held};
use bx_base::{OutOfMemory, Raw};
use bx_cell::{Cell, CellError};
use bx_disk::Rack;
use bx_facts::FactError;
use bx_global::{GlobalState, Held};
use std::alloc::Global;

/// The first sector of the cell, behind the label.
const CELL: u64 = 1;

/// The value of the cells of a new volume that begins with a state.
pub fn first_value(alloc: Global, state: &GlobalState) -> Result<Raw, OutOfMemory>
    requires state { IsAllowed state.now }
    requires index { state.now.index + 1 < 2 ^ 64 }
    ensures { IfOk result (λ value. value ≡ held_text (first_held state.now)) }
{
    let held = first_held(alloc, state)?;
    held.write(alloc)
}

/// What an acceptor begins with that starts: what it holds, and its cell, where it takes part and one can be read.
pub(crate) fn begin<R: Rack>(
    alloc: Global,
    rack: &mut R,
    replica: u32,
    first: &GlobalState,
    origin: Origin,
) -> Result<(Held, Option<Cell>), FactError>
    requires room { 21 ≤ slice_index (R.state rack.old).sizes replica }
    requires state { IsAllowed first.now }
    requires index { first.now.index + 1 < 2 ^ 64 }
    ensures starts { R.tells rack.old → IfOk result (λ x. StartsWith replica first.now origin ((R.state rack.old).reads replica) x.0 x.1) }
    ensures stands { IfOk result (λ x. StandsSo replica first.now origin x.0 x.1) }
    ensures holds { R.tells rack.old → IfOk result (λ x. EachSure (R.state rack.new) (λ image. IfSome x.1 (λ cell. Holds cell image))) }
    ensures sure { R.tells rack.old → OnOk result (IsSynced (R.state rack.new) replica) }
    ensures disks { R.tells rack.old → Syncs (R.state rack.old) (R.state rack.new) (R.moment rack.old) (R.moment rack.new) (R.left_since rack.old) (R.left_since rack.new) replica }
    ensures memory { IsErrOf result MemoryFails → NoneRose (R.faults rack.old) (R.faults rack.new) (R.faults_of rack.old) (R.faults_of rack.new) }
    ensures rack { CountedOn R.Rack rack.old rack.new replica result DiskFails }
{
    let found = found(alloc, rack, replica, first.devices.len() as u32)?;
    Ok(hold(alloc, first, origin, found)?)
}

/// What an acceptor holds of a cell that was found on its disk.
fn hold(
    alloc: Global,
    first: &GlobalState,
    origin: Origin,
    found: Option<(Cell, Held)>,
) -> Result<(Held, Option<Cell>), OutOfMemory>
    requires { first.now.index + 1 < 2 ^ 64 }
    ensures { IfOk result (HoldsOf first.now origin found) }
{
    let Some((cell, raw)) = part_of(origin, found) else {
        return Ok((first_held(alloc, first)?, None));
    };
    let held = caught_up(alloc, first, origin, cell.number(), raw)?;
    Ok((held, Some(cell)))
}

/// What was found, where the replica takes part with it.
fn part_of(origin: Origin, found: Option<(Cell, Held)>) -> Option<(Cell, Held)>
    ensures some { IfSome result (λ x. (found ≡ Some x) × TakesPart origin x.0.found.number) }
    ensures none { IfNone result (IfSome found (λ x. TakesPart origin x.0.found.number → ⊥)) }
{
    let (cell, held) = found?;
    if !takes_part(origin, cell.number()) {
        return None;
    }
    Some((cell, held))
}

/// What is held of a cell with this number, which has that.
fn caught_up(
    alloc: Global,
    first: &GlobalState,
    origin: Origin,
    number: u64,
    raw: Held,
) -> Result<Held, OutOfMemory>
    requires { first.now.index + 1 < 2 ^ 64 }
    ensures { IfOk result (CatchesUp origin first.now number raw) }
{
    let mut held = raw;
    if !is_as_found(origin, number) {
        return Ok(held);
    }
    let state = first.copy(alloc)?;
    catch_up(alloc, &mut held, state)?;
    Ok(held)
}

/// Whether a replica takes part with a cell under this number.
fn takes_part(origin: Origin, number: u64) -> bool
    ensures { IsTrue result ↔ TakesPart origin number }
{
    match origin {
        Origin::Made => true,
        Origin::Found(found) => found <= number,
        Origin::Apart => false,
    }
}

/// Whether a cell with this number stands as it was found.
fn is_as_found(origin: Origin, number: u64) -> bool
    ensures { IsTrue result ↔ IsAsFound origin number }
{
    match origin {
        Origin::Found(found) => found == number,
        Origin::Made | Origin::Apart => false,
    }
}

/// The cell on the disk of a replica, and what it has; `None` exactly where none can be read.
fn found<R: Rack>(
    alloc: Global,
    rack: &mut R,
    replica: u32,
    devices: u32,
) -> Result<Option<(Cell, Held)>, FactError>
    requires { 21 ≤ slice_index (R.state rack.old).sizes replica }
    ensures some { R.tells rack.old → IfOk result (λ found. IfSome found (λ x. IsFound devices ((R.state rack.old).reads replica) x.0.found x.1)) }
    ensures none { R.tells rack.old → IfOk result (λ found. IfNone found (IsNotFound devices ((R.state rack.old).reads replica))) }
    ensures cell { IfOk result (λ found. IfSome found (λ x. IsCellAt replica x.1 x.0 × IsHeld devices x.1)) }
    ensures holds { R.tells rack.old → IfOk result (λ found. IfSome found (λ x. EachSure (R.state rack.new) (Holds x.0))) }
    ensures sure { R.tells rack.old → OnOk result (IsSynced (R.state rack.new) replica) }
    ensures disks { R.tells rack.old → Syncs (R.state rack.old) (R.state rack.new) (R.moment rack.old) (R.moment rack.new) (R.left_since rack.old) (R.left_since rack.new) replica }
    ensures memory { IsErrOf result MemoryFails → NoneRose (R.faults rack.old) (R.faults rack.new) (R.faults_of rack.old) (R.faults_of rack.new) }
    ensures rack { CountedOn R.Rack rack.old rack.new replica result DiskFails }
{
    let cell = match Cell::open(alloc, rack, replica, CELL) {
        Ok(cell) => cell,
        Err(CellError::NoCell) => return Ok(None),
        Err(CellError::DiskFault) => return Err(FactError::Disk),
        Err(CellError::OutOfMemory) => return Err(FactError::OutOfMemory),
    };
    let Some(held) = Held::read(alloc, cell.get(), devices)? else {
        return Ok(None);
    };
    Ok(Some((cell, held)))
}
