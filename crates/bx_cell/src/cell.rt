//! Cells.

ghost use Rattle.std.specs.Prelude.{◌≡◌, ℕ, ◌+◌, ◌^◌, ◌<◌, ◌≤◌, ◌⊎◌, true, length, slice_index, Some, None, OnOk, IfOk, IsErrOf};
ghost use Rattle.bx_disk.specs.Kept.{CountedOn};
ghost use Rattle.bx_disk.specs.Disks.{IsImage};
ghost use Rattle.bx_disk.specs.Counts.{NoneRose};
ghost use Rattle.bx_calls.specs.Regions.{IsSynced};
ghost use Rattle.bx_calls.specs.Calls.{KeepsSure, KeepsAll, HasSure, LeavesOnly};
ghost use Rattle.bx_cell.specs.declared.error.CellError.TheVariants.{DiskFault, NoCell, OutOfMemory as WantsMemory};
ghost use Rattle.bx_cell.specs.Halves.{cell_in};
ghost use Rattle.bx_cell.specs.Images.{EachImage, EachSure};
ghost use Rattle.bx_cell.specs.Cells.{Holds, HasEither, next, with_value, shut};

use crate::error::CellError;
use crate::halves::{CELL, place_of, value_of};
use crate::steps::{replace, sync_and_read};
use bx_base::Raw;
use bx_disk::Rack;
use std::alloc::Global;
use std::marker::Model;

/// A value of at most 4096 bytes on a disk, in twenty sectors: after a crash at any moment it is the old or the new one.
/// Its value stands in one of two halves; a new one is put into the other half, whose gate is opened last. Once a call of
/// the rack failed in a put, the cell must be opened again before the next.
#[derive(Drop)]
pub struct Cell {
    alloc: Global,
    disk: u32,
    base: u64,
    half: u64,
    number: u64,
    value: Raw,
    ready: bool,
}

impl Model for Cell {
    ghost use Rattle.std.specs.Prelude.{◌<◌, ◌≤◌, length};
    ghost use Rattle.bx_cell.specs.Cells.{Known};

    ghost Value = { Known };

    ghost view = { λ c. record { disk = c.disk; base = c.base; found = record { half = c.half; number = c.number; value = c.value }; ready = c.ready } };

    ghost invariant = { λ c. (c.half < 2) × (length c.value ≤ 4096) };
}

impl Cell {
    /// Makes the disk sure, and reads the cell whose first sector this is. `NoCell` exactly where neither half has an open
    /// gate and a length of at most 4096.
    pub fn open<R: Rack>(
        alloc: Global,
        rack: &mut R,
        disk: u32,
        base: u64,
    ) -> Result<Cell, CellError>
        requires disk { disk < length (R.state rack.old).sizes }
        requires range { base + 20 ≤ slice_index (R.state rack.old).sizes disk }
        ensures place { IfOk result (λ cell. (cell.disk ≡ disk) × (cell.base ≡ base)) }
        ensures ready { IfOk result (λ cell. cell.ready ≡ true) }
        ensures some { R.tells rack.old → IfOk result (λ cell. cell_in ((R.state rack.old).reads disk) base ≡ Some cell.found) }
        ensures holds { R.tells rack.old → IfOk result (λ cell. EachSure (R.state rack.new) (Holds cell)) }
        ensures none { R.tells rack.old → IsErrOf result NoCell → cell_in ((R.state rack.old).reads disk) base ≡ None }
        ensures sure { R.tells rack.old → OnOk result (IsSynced (R.state rack.new) disk) }
        ensures sure_none { R.tells rack.old → IsErrOf result NoCell → IsSynced (R.state rack.new) disk }
        ensures keeps { R.tells rack.old → KeepsAll (R.state rack.old) (R.state rack.new) disk }
        ensures any_moment { R.tells rack.old → LeavesOnly (R.moment rack.old) (R.moment rack.new) (R.left_since rack.old) (R.left_since rack.new) (IsImage (R.state rack.old)) }
        ensures rack { CountedOn R.Rack rack.old rack.new disk result DiskFault }
        ensures memory_counts { IsErrOf result WantsMemory → NoneRose (R.faults rack.old) (R.faults rack.new) (R.faults_of rack.old) (R.faults_of rack.new) }
        ensures none_counts { IsErrOf result NoCell → NoneRose (R.faults rack.old) (R.faults rack.new) (R.faults_of rack.old) (R.faults_of rack.new) }
    {
        let mut bytes = [0; CELL];
        sync_and_read(rack, disk, base, &mut bytes)?;
        let Some(place) = place_of(&bytes) else {
            return Err(CellError::NoCell);
        };
        let value = Raw::of(alloc, value_of(&bytes, place))?;
        Ok(Cell {
            alloc,
            disk,
            base,
            half: place.half as u64,
            number: place.head.number,
            value,
            ready: true,
        })
    }

    /// The value.
    pub fn get(&self) -> &[u8]
        ensures { result.now ≡ self.now.found.value }
    {
        self.value.bytes()
    }

    /// The number of the half that has the value.
    pub fn number(&self) -> u64
        ensures { result ≡ self.now.found.number }
    {
        self.number
    }

    /// Whether a value may be put. Where it may not, a call of the rack failed in the last put, and the cell must be opened
    /// again.
    pub fn is_ready(&self) -> bool
        ensures { result ≡ self.now.ready }
    {
        self.ready
    }

    /// Puts a value. Where each image held the cell's value, each holds the new one afterwards, and at each moment of the
    /// call the old or the new one. After `DiskFault` the cell must be opened again, and after `OutOfMemory` unless that
    /// came before the first call of the rack; then all is as it was.
    pub fn put<R: Rack>(&mut self, rack: &mut R, value: &[u8]) -> Result<(), CellError>
        requires ready { self.old.ready ≡ true }
        requires disk { self.old.disk < length (R.state rack.old).sizes }
        requires range { self.old.base + 20 ≤ slice_index (R.state rack.old).sizes self.old.disk }
        requires short { length value.now ≤ 4096 }
        requires number { self.old.found.number + 1 < 2 ^ 64 }
        ensures put { OnOk result (self.new ≡ with_value self.old value.now) }
        ensures fault { IsErrOf result DiskFault → self.new ≡ shut self.old }
        ensures never { IsErrOf result NoCell → ⊥ }
        ensures memory { IsErrOf result WantsMemory → ((self.new ≡ self.old) × (rack.new ≡ rack.old)) ⊎ (self.new ≡ shut self.old) }
        ensures holds { R.tells rack.old → EachImage (R.state rack.old) (Holds self.old) → OnOk result (EachSure (R.state rack.new) (Holds self.new)) }
        ensures any_moment { R.tells rack.old → EachImage (R.state rack.old) (Holds self.old)
            → LeavesOnly (R.moment rack.old) (R.moment rack.new) (R.left_since rack.old) (R.left_since rack.new) (HasEither (R.state rack.old) self.old.disk self.old.base self.old.found (next self.old.found value.now)) }
        ensures either { R.tells rack.old → EachSure (R.state rack.old) (Holds self.old)
            → EachSure (R.state rack.new) (HasEither (R.state rack.old) self.old.disk self.old.base self.old.found (next self.old.found value.now)) }
        ensures sure { R.tells rack.old → OnOk result (IsSynced (R.state rack.new) self.old.disk) }
        ensures keeps { R.tells rack.old → KeepsSure (R.state rack.old) (R.state rack.new) self.old.disk self.old.base 20 }
        ensures beside { R.tells rack.old → LeavesOnly (R.moment rack.old) (R.moment rack.new) (R.left_since rack.old) (R.left_since rack.new) (HasSure (R.state rack.old) self.old.disk self.old.base 20) }
        ensures rack { CountedOn R.Rack rack.old rack.new self.old.disk result DiskFault }
        ensures memory_counts { IsErrOf result WantsMemory → NoneRose (R.faults rack.old) (R.faults rack.new) (R.faults_of rack.old) (R.faults_of rack.new) }
    {
        let copy = Raw::of(self.alloc, value)?;
        let half = 1 - self.half;
        let number = self.number + 1;
        self.ready = false;
        replace(rack, self.disk, self.base, half, number, value)?;
        self.half = half;
        self.number = number;
        self.value = copy;
        self.ready = true;
        Ok(())
    }
}
