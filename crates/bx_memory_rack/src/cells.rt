//! The sectors of one disk that were ever written.

ghost use Rattle.std.specs.Prelude.{◌≡◌, false, ◌+◌, ◌*◌, ◌-◌, ◌/◌, ◌%◌, ◌^◌, ◌<◌, ◌≤◌, ℕ, ◌==◌, if◌then◌else◌, length, OnOk, IsSome};
ghost use Rattle.std.specs.Ordering.{nat_cmp};
ghost use Rattle.std.specs.BTreeMap.{get};
ghost use Rattle.bx_disk.specs.Disks.{is_among, sector_of, AreSectors};
ghost use Rattle.bx_disk.specs.Crash.{noise_at, seeded};
ghost use Rattle.bx_memory_rack.specs.Cells.{cell_at, is_unsure, left_cell, written_cell};

use crate::cell::Cell;
use bx_base::OutOfMemory;
use rand_core::SeedableRng;
use rand_pcg::Pcg32;
use std::alloc::Global;
use std::collections::BTreeMap;

/// Sectors by their numbers. One that isn't there was never written.
pub type Cells = BTreeMap<u64, Cell>;

// Takes the room for a sector, which stays as it was.
fn make_room_at(alloc: Global, cells: &mut Cells, sector: u64) -> Result<(), OutOfMemory>
    ensures same { (s : ℕ) → cell_at cells.new s ≡ cell_at cells.old s }
    ensures there { OnOk result (IsSome (get nat_cmp cells.new sector)) }
    ensures stay { (s : ℕ) → IsSome (get nat_cmp cells.old s) → IsSome (get nat_cmp cells.new s) }
{
    if !cells.contains_key(&sector) {
        cells.insert(sector, Cell::blank(alloc)?)?;
    }
    Ok(())
}

/// Takes the room for sectors, which stay as they were.
pub fn make_room(alloc: Global, cells: &mut Cells, from: u64, count: u64) -> Result<(), OutOfMemory>
    requires { from + count < 2 ^ 64 }
    ensures same { (s : ℕ) → cell_at cells.new s ≡ cell_at cells.old s }
    ensures there { OnOk result ((s : ℕ) → from ≤ s → s < from + count → IsSome (get nat_cmp cells.new s)) }
{
    for i in 0..count {
        make_room_at(alloc, cells, from + i)?;
    }
    Ok(())
}

// Writes one sector.
fn write_at(cells: &mut Cells, sector: u64, content: &[u8], synced: usize, since: usize)
    requires long { length content.now ≡ 512 }
    requires there { IsSome (get nat_cmp cells.old sector) }
    ensures here { cell_at cells.new sector ≡ written_cell synced since (cell_at cells.old sector) content.now }
    ensures others { (s : ℕ) → (s == sector) ≡ false → cell_at cells.new s ≡ cell_at cells.old s }
    ensures stay { (s : ℕ) → IsSome (get nat_cmp cells.old s) → IsSome (get nat_cmp cells.new s) }
{
    if let Some(cell) = cells.get_mut(&sector) {
        cell.write(content, synced, since);
    }
}

// One sector of bytes.
fn sector_at(bytes: &[u8], at: usize) -> &[u8]
    requires { 512 * (at + 1) ≤ length bytes.now }
    ensures value { result.now ≡ sector_of bytes.now at }
    ensures long { length result.now ≡ 512 }
{
    &bytes[512 * at..512 * at + 512]
}

/// Writes sectors.
pub fn write_cells(cells: &mut Cells, from: u64, bytes: &[u8], synced: usize, since: usize)
    requires whole { length bytes.now % 512 ≡ 0 }
    requires range { from + length bytes.now / 512 < 2 ^ 64 }
    requires there { (s : ℕ) → from ≤ s → s < from + length bytes.now / 512 → IsSome (get nat_cmp cells.old s) }
    ensures { (s : ℕ) → cell_at cells.new s ≡ (if is_among from (length bytes.now / 512) s then written_cell synced since (cell_at cells.old s) (sector_of bytes.now (s - from)) else cell_at cells.old s) }
{
    for i in 0..bytes.len() / 512 {
        write_at(cells, from + i as u64, sector_at(bytes, i), synced, since);
    }
}

// Puts a sector in its place in bytes.
fn put_sector(into: &mut [u8], at: usize, content: &[u8])
    requires range { 512 * (at + 1) ≤ length into.old }
    requires long { length content.now ≡ 512 }
    ensures here { sector_of into.new at ≡ content.now }
    ensures others { (i : ℕ) → (i == at) ≡ false → sector_of into.new i ≡ sector_of into.old i }
{
    into[512 * at..512 * at + 512].copy_from_slice(content);
}

// Reads one sector to its place in bytes.
fn read_at(cells: &Cells, sector: u64, into: &mut [u8], at: usize)
    requires range { 512 * (at + 1) ≤ length into.old }
    ensures here { sector_of into.new at ≡ (cell_at cells.now sector).now }
    ensures others { (i : ℕ) → (i == at) ≡ false → sector_of into.new i ≡ sector_of into.old i }
{
    match cells.get(&sector) {
        Some(cell) => put_sector(into, at, cell.now.bytes()),
        None => put_sector(into, at, &[0; 512]),
    }
}

/// Reads sectors.
pub fn read_cells(cells: &Cells, from: u64, into: &mut [u8])
    requires { from + length into.old / 512 < 2 ^ 64 }
    ensures { AreSectors (λ s. (cell_at cells.now s).now) from (length into.old / 512) into.new }
{
    for i in 0..into.len() / 512 {
        read_at(cells, from + i as u64, into, i);
    }
}

/// Puts back what each unsure sector held at the last sync.
pub fn drop_unsure(cells: &mut Cells, synced: usize)
    ensures { (s : ℕ) → cell_at cells.new s ≡ left_cell synced (cell_at cells.old s) (cell_at cells.old s).held }
{
    // Every cell stays: `retain` goes over them in order and lets each be written.
    cells.retain(|_, cell| {
        cell.drop_unsure(synced);
        true
    });
}

/// Leaves the noise of a seed in the unsure sectors, in their order.
pub fn fill_unsure(cells: &mut Cells, synced: usize, seed: u64)
    ensures { (s : ℕ) → cell_at cells.new s ≡ left_cell synced (cell_at cells.old s) (noise_at (λ t. is_unsure synced (cell_at cells.old t)) (seeded seed) s) }
{
    let mut generator = Pcg32::seed_from_u64(seed);
    // Every cell stays, as above.
    cells.retain(move |_, cell| {
        cell.fill_unsure(synced, &mut generator);
        true
    });
}
