//! One disk in memory.

ghost use Rattle.std.specs.Prelude.{◌≡◌, false, true, ◌||◌, ◌+◌, ◌-◌, ◌/◌, ◌%◌, ◌^◌, ◌<◌, ◌≤◌, ℕ, nat_lt, if◌then◌else◌, length, OnOk, IsSome};
ghost use Rattle.std.specs.Ordering.{nat_cmp};
ghost use Rattle.std.specs.BTreeMap.{get};
ghost use Rattle.bx_disk.specs.Disks.{is_among, sector_of, zeros, AreSectors};
ghost use Rattle.bx_memory_rack.specs.Cells.{cell_at, blank_cell, crashed_cell, written_cell};
ghost use Rattle.bx_memory_rack.specs.Memory.{IsBlank};

use crate::cells::{self, Cells};
use bx_base::OutOfMemory;
use bx_disk::Noise;
use std::alloc::Global;
use std::collections::BTreeMap;

/// A disk: how many sectors it has, those that were ever written, how long the record was at its last sync, and
/// whether a sector is unsure.
#[derive(Drop)]
pub struct MemDisk {
    pub size: u64,
    pub cells: Cells,
    pub synced: usize,
    pub dirty: bool,
}

impl MemDisk {
    /// A disk of zeros, when the record is so long.
    pub fn blank(alloc: Global, size: u64, synced: usize) -> MemDisk
        ensures { IsBlank result size synced }
    {
        MemDisk {
            size,
            cells: BTreeMap::new(alloc),
            synced,
            dirty: false,
        }
    }

    /// Takes the room for sectors, which stay as they were.
    pub fn make_room(&mut self, alloc: Global, sector: u64, count: u64) -> Result<(), OutOfMemory>
        requires { sector + count < 2 ^ 64 }
        ensures size { self.new.size ≡ self.old.size }
        ensures synced { self.new.synced ≡ self.old.synced }
        ensures dirty { self.new.dirty ≡ self.old.dirty }
        ensures same { (s : ℕ) → cell_at self.new.cells s ≡ cell_at self.old.cells s }
        ensures there { OnOk result ((s : ℕ) → sector ≤ s → s < sector + count → IsSome (get nat_cmp self.new.cells s)) }
    {
        cells::make_room(alloc, &mut self.cells, sector, count)
    }

    /// Writes sectors, once the record is so long.
    pub fn write(&mut self, sector: u64, bytes: &[u8], since: usize)
        requires whole { length bytes.now % 512 ≡ 0 }
        requires range { sector + length bytes.now / 512 < 2 ^ 64 }
        requires there { (s : ℕ) → sector ≤ s → s < sector + length bytes.now / 512 → IsSome (get nat_cmp self.old.cells s) }
        ensures size { self.new.size ≡ self.old.size }
        ensures synced { self.new.synced ≡ self.old.synced }
        ensures dirty { self.new.dirty ≡ (nat_lt 0 (length bytes.now) || self.old.dirty) }
        ensures cells { (s : ℕ) → cell_at self.new.cells s ≡ (if is_among sector (length bytes.now / 512) s then written_cell self.old.synced since (cell_at self.old.cells s) (sector_of bytes.now (s - sector)) else cell_at self.old.cells s) }
    {
        cells::write_cells(&mut self.cells, sector, bytes, self.synced, since);
        self.dirty = !bytes.is_empty() || self.dirty;
    }

    /// Notes a sync, once the record is so long.
    pub fn mark_synced(&mut self, synced: usize)
        ensures { self.new ≡ record { size = self.old.size; cells = self.old.cells; synced = synced; dirty = false } }
    {
        self.synced = synced;
        self.dirty = false;
    }

    /// Crashes, once the record is so long: no sector is unsure then.
    pub fn crash(&mut self, how: Noise, synced: usize)
        ensures size { self.new.size ≡ self.old.size }
        ensures cells { (s : ℕ) → cell_at self.new.cells s ≡ crashed_cell how self.old.synced (cell_at self.old.cells) s }
        ensures synced { self.new.synced ≡ synced }
        ensures dirty { self.new.dirty ≡ false }
    {
        match how {
            Noise::Keep => {}
            Noise::Drop => cells::drop_unsure(&mut self.cells, self.synced),
            Noise::Seed(seed) => cells::fill_unsure(&mut self.cells, self.synced, seed),
        }
        self.mark_synced(synced);
    }

    /// Makes all sectors zero, once the record is so long.
    pub fn clear(&mut self, synced: usize)
        ensures size { self.new.size ≡ self.old.size }
        ensures cells { (s : ℕ) → cell_at self.new.cells s ≡ blank_cell }
        ensures synced { self.new.synced ≡ synced }
        ensures dirty { self.new.dirty ≡ false }
    {
        self.cells.clear();
        self.synced = synced;
        self.dirty = false;
    }
}
