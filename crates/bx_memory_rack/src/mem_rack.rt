//! A rack in memory.

ghost use Rattle.std.specs.Prelude.{◌≡◌, ℕ, ◌+◌, ◌/◌, ◌%◌, ◌^◌, ◌<◌, ◌≤◌, Bool, true, false, List, [], ◌∷◌, ◌++◌, length, slice_index, slice_set, replicate, IfOk, OnOk, OnErr, IsErr, IsErrOf, is_err, if◌then◌else◌};
ghost use Rattle.bx_base.specs.Faults.{Rose, count_up};
ghost use Rattle.bx_disk.specs.declared.fault.RackError.TheVariants.{Fault};
ghost use Rattle.bx_disk.specs.declared.entry.Entry.TheVariants.{Wrote, Synced, Shaped, Crashed, Blanked};
ghost use Rattle.bx_disk.specs.Disks.{Image, Disks, IsSector, IsImage, AreSectors, MayBeWritten, written, synced, shaped, blanked};
ghost use Rattle.bx_disk.specs.Crash.{crashed};
ghost use Rattle.bx_disk.specs.Moments.{Elapses};
ghost use Rattle.bx_disk.specs.Counts.{NoneFalls, NoneRose, BothRose};
ghost use Rattle.bx_disk.specs.Past.{Past, LeftSince, disks_of, moment_of, fails, counted, noted, with_entries, with_counts, failed_on, failed};
ghost use Rattle.bx_memory_rack.specs.Laws.{lawful_past, now_counts, now_only};

use crate::mem_disk::MemDisk;
use crate::{cells, steps};
use bx_base::OutOfMemory;
use bx_disk::{CrashRack, DiskFault, Entry, Noise, Rack, RackError};
use std::alloc::Global;
use std::marker::Model;

/// A rack in memory, of which given calls fail. Contracts see its record, which tells its disks at each moment.
#[derive(Drop)]
pub struct MemRack {
    alloc: Global,
    first: Vec<u64>,
    entries: Vec<Entry>,
    disks: Vec<MemDisk>,
    calls: u64,
    failing: Vec<u64>,
    faults: u64,
    by_disk: Vec<u64>,
}

impl Model for MemRack {
    ghost use Rattle.bx_disk.specs.Past.{Past};
    ghost use Rattle.bx_memory_rack.specs.Memory.{IsMemory};

    ghost Value = { Past };

    ghost view = { λ m. record { first = m.first.items; entries = m.entries.items; calls = m.calls; failing = m.failing.items; faults = m.faults; by_disk = m.by_disk.items } };

    ghost invariant = { λ m. IsMemory m.first.items m.entries m.disks.items m.by_disk.items };
}

impl MemRack {
    /// A rack of disks of these sizes, all sectors zero and sure. The calls whose numbers, counted from 1, stand in
    /// `faults` fail.
    pub fn new(alloc: Global, sizes: &[u64], faults: &[u64]) -> Result<MemRack, OutOfMemory>
        requires { length sizes.now < 2 ^ 32 }
        ensures { IfOk result (λ rack. rack ≡ record { first = sizes.now; entries = []; calls = 0; failing = faults.now; faults = 0; by_disk = replicate (length sizes.now) 0 }) }
    {
        Ok(MemRack {
            alloc,
            first: Vec::from_slice(alloc, sizes)?,
            entries: Vec::new(alloc),
            disks: steps::make_disks(alloc, sizes, 0)?,
            calls: 0,
            failing: Vec::from_slice(alloc, faults)?,
            faults: 0,
            by_disk: Vec::from_elem(alloc, 0u64, sizes.len())?,
        })
    }
}

impl Rack for MemRack {
    ghost use Rattle.bx_memory_rack.specs.Memory.{NotesSync};

    ghost tells = { λ _. Unit {0} };

    ghost state = { disks_of };

    ghost moment = { moment_of };

    ghost left_since = { LeftSince };

    ghost faults = { λ rack. rack.faults };

    ghost faults_of = { λ rack d. slice_index rack.by_disk d };

    ghost whole = { λ rack d s tells within. (lawful_past rack).whole d s within };

    ghost beyond = { λ rack d s tells past. (lawful_past rack).beyond d s past };

    ghost there = { λ rack d s tells unsure. (lawful_past rack).there d s unsure };

    ghost settled = { λ rack d s tells sure. (lawful_past rack).settled d s sure };

    ghost counts_now = { λ rack t image tells late is. now_counts rack t image late is };

    ghost only_now = { λ rack image tells left. now_only rack image left };

    fn disks(&self) -> u32 {
        self.disks.len() as u32
    }

    fn sectors(&self, disk: u32) -> u64 {
        self.disks[disk as usize].size
    }

    fn read(&mut self, disk: u32, sector: u64, into: &mut [u8]) -> Result<(), DiskFault>
        requires disk { disk < length (disks_of self.old).sizes }
        requires whole { length into.old % 512 ≡ 0 }
        requires range { sector + length into.old / 512 ≤ slice_index (disks_of self.old).sizes disk }
        // It fails exactly where its number stands among those that fail, and counts the fault on this disk.
        ensures which { is_err result ≡ fails self.old }
        ensures after { self.new ≡ (if fails self.old then failed_on self.old disk else counted self.old) }

        ensures bytes { Unit {0} → OnOk result (AreSectors ((disks_of self.old).reads disk) sector (length into.old / 512) into.new) }
        ensures stays { disks_of self.new ≡ disks_of self.old }
        ensures time { Unit {0} → Elapses (moment_of self.old) (moment_of self.new) (LeftSince self.old) (LeftSince self.new) (disks_of self.new) }
        ensures fault { OnErr result (BothRose self.old.faults self.new.faults (λ d. slice_index self.old.by_disk d) (λ d. slice_index self.new.by_disk d) disk) }
        ensures later { NoneFalls self.old.faults self.new.faults (λ d. slice_index self.old.by_disk d) (λ d. slice_index self.new.by_disk d) }
        ensures no_fault { OnOk result (NoneRose self.old.faults self.new.faults (λ d. slice_index self.old.by_disk d) (λ d. slice_index self.new.by_disk d)) }
        ensures sizes { (disks_of self.new).sizes ≡ (disks_of self.old).sizes }
        ensures keeps_telling { Unit {0} → Unit {0} }
    {
        if steps::count_call(&mut self.calls, &self.failing) {
            self.faults = self.faults.saturating_add(1);
            steps::count_fault(&mut self.by_disk, disk);
            return Err(DiskFault);
        }
        cells::read_cells(&self.disks[disk as usize].cells, sector, into);
        Ok(())
    }

    fn write(&mut self, disk: u32, sector: u64, bytes: &[u8]) -> Result<(), RackError>
        requires disk { disk < length (disks_of self.old).sizes }
        requires whole { length bytes.now % 512 ≡ 0 }
        requires range { sector + length bytes.now / 512 ≤ slice_index (disks_of self.old).sizes disk }
        // It fails exactly where its number stands among those that fail, if memory doesn't run out.
        ensures fault_if { IsErrOf result Fault → fails self.old ≡ true }
        ensures ok_if { OnOk result (fails self.old ≡ false) }
        ensures memory_if { IsErrOf result RackError.OutOfMemory → fails self.old ≡ false }
        ensures only_then { IsErrOf result Fault → self.new ≡ failed_on self.old disk }
        ensures noted { OnOk result (self.new ≡ noted self.old (Wrote disk sector bytes.now)) }
        ensures memory_left { IsErrOf result RackError.OutOfMemory → self.new ≡ counted self.old }

        ensures written { Unit {0} → OnOk result (disks_of self.new ≡ written (disks_of self.old) disk sector bytes.now) }
        ensures torn { Unit {0} → OnErr result (MayBeWritten (disks_of self.old) (disks_of self.new) disk sector (length bytes.now / 512)) }
        ensures memory { Unit {0} → IsErrOf result RackError.OutOfMemory → disks_of self.new ≡ disks_of self.old }
        ensures time { Unit {0} → Elapses (moment_of self.old) (moment_of self.new) (LeftSince self.old) (LeftSince self.new) (disks_of self.new) }
        ensures fault { IsErrOf result Fault → BothRose self.old.faults self.new.faults (λ d. slice_index self.old.by_disk d) (λ d. slice_index self.new.by_disk d) disk }
        ensures later { NoneFalls self.old.faults self.new.faults (λ d. slice_index self.old.by_disk d) (λ d. slice_index self.new.by_disk d) }
        ensures memory_counts { IsErrOf result RackError.OutOfMemory → NoneRose self.old.faults self.new.faults (λ d. slice_index self.old.by_disk d) (λ d. slice_index self.new.by_disk d) }
        ensures no_fault { OnOk result (NoneRose self.old.faults self.new.faults (λ d. slice_index self.old.by_disk d) (λ d. slice_index self.new.by_disk d)) }
        ensures sizes { (disks_of self.new).sizes ≡ (disks_of self.old).sizes }
        ensures keeps_telling { Unit {0} → Unit {0} }
    {
        if steps::count_call(&mut self.calls, &self.failing) {
            self.faults = self.faults.saturating_add(1);
            steps::count_fault(&mut self.by_disk, disk);
            return Err(RackError::Fault);
        }
        steps::write_sectors(
            self.alloc,
            &mut self.disks,
            &mut self.entries,
            disk,
            sector,
            bytes,
        )?;
        Ok(())
    }

    fn sync(&mut self, disk: u32) -> Result<(), DiskFault>
        requires disk { disk < length (disks_of self.old).sizes }
        // It fails exactly where its number stands among those that fail, and counts the fault on this disk.
        ensures which { is_err result ≡ fails self.old }
        ensures after { OnErr result (self.new ≡ failed_on self.old disk) }

        // A sync is noted where a sector of the disk was unsure.
        ensures noted { OnOk result (NotesSync (disks_of self.old) disk self.old.entries self.new.entries) }
        ensures rest { OnOk result (self.new ≡ with_entries (counted self.old) self.new.entries) }

        ensures synced { Unit {0} → OnOk result (disks_of self.new ≡ synced (disks_of self.old) disk) }
        ensures stays { Unit {0} → OnErr result (disks_of self.new ≡ disks_of self.old) }
        ensures time { Unit {0} → Elapses (moment_of self.old) (moment_of self.new) (LeftSince self.old) (LeftSince self.new) (disks_of self.new) }
        ensures fault { OnErr result (BothRose self.old.faults self.new.faults (λ d. slice_index self.old.by_disk d) (λ d. slice_index self.new.by_disk d) disk) }
        ensures later { NoneFalls self.old.faults self.new.faults (λ d. slice_index self.old.by_disk d) (λ d. slice_index self.new.by_disk d) }
        ensures no_fault { OnOk result (NoneRose self.old.faults self.new.faults (λ d. slice_index self.old.by_disk d) (λ d. slice_index self.new.by_disk d)) }
        ensures sizes { (disks_of self.new).sizes ≡ (disks_of self.old).sizes }
        ensures keeps_telling { Unit {0} → Unit {0} }
    {
        if steps::count_call(&mut self.calls, &self.failing) {
            self.faults = self.faults.saturating_add(1);
            steps::count_fault(&mut self.by_disk, disk);
            return Err(DiskFault);
        }
        steps::sync_sectors(&mut self.disks, &mut self.entries, disk);
        Ok(())
    }

    fn shape(&mut self, sizes: &[u64]) -> Result<(), RackError>
        requires { length sizes.now < 2 ^ 32 }
        // It fails exactly where its number stands among those that fail, if memory doesn't run out.
        ensures fault_if { IsErrOf result Fault → fails self.old ≡ true }
        ensures ok_if { OnOk result (fails self.old ≡ false) }
        ensures memory_if { IsErrOf result RackError.OutOfMemory → fails self.old ≡ false }
        ensures only_then { IsErrOf result Fault → self.new ≡ failed self.old }
        // New disks have had no fault, and the counts of the old ones stay.
        ensures noted { OnOk result (self.new ≡ with_counts (noted self.old (Shaped sizes.now)) self.new.by_disk) }
        ensures memory_left { IsErrOf result RackError.OutOfMemory → self.new ≡ with_counts (counted self.old) self.new.by_disk }
        ensures counts { (d : ℕ) → slice_index self.new.by_disk d ≡ slice_index self.old.by_disk d }

        ensures shaped { Unit {0} → OnOk result (disks_of self.new ≡ shaped sizes.now) }
        ensures sizes { OnOk result ((disks_of self.new).sizes ≡ sizes.now) }
        ensures time { Unit {0} → Elapses (moment_of self.old) (moment_of self.new) (LeftSince self.old) (LeftSince self.new) (disks_of self.new) }
        ensures fault { IsErrOf result Fault → Rose self.old.faults self.new.faults }
        ensures alone { (d : ℕ) → slice_index self.new.by_disk d ≡ slice_index self.old.by_disk d }
        ensures later { NoneFalls self.old.faults self.new.faults (λ d. slice_index self.old.by_disk d) (λ d. slice_index self.new.by_disk d) }
        ensures memory_counts { IsErrOf result RackError.OutOfMemory → NoneRose self.old.faults self.new.faults (λ d. slice_index self.old.by_disk d) (λ d. slice_index self.new.by_disk d) }
        ensures no_fault { OnOk result (NoneRose self.old.faults self.new.faults (λ d. slice_index self.old.by_disk d) (λ d. slice_index self.new.by_disk d)) }
        ensures keeps_telling { Unit {0} → Unit {0} }
    {
        if steps::count_call(&mut self.calls, &self.failing) {
            self.faults = self.faults.saturating_add(1);
            return Err(RackError::Fault);
        }
        steps::shape_disks(
            self.alloc,
            &mut self.disks,
            &mut self.entries,
            &mut self.by_disk,
            sizes,
        )?;
        Ok(())
    }
}

impl CrashRack for MemRack {
    fn crash(&mut self, disk: u32, how: Noise) -> Result<(), OutOfMemory>
        requires { disk < length (disks_of self.old).sizes }
        // A crash is noted, and is neither a call nor a fault. For want of memory nothing changes.
        ensures noted { OnOk result (self.new ≡ with_entries self.old (self.old.entries ++ Crashed disk how ∷ [])) }
        ensures nothing { OnErr result (self.new ≡ self.old) }

        ensures crashed { Unit {0} → OnOk result (disks_of self.new ≡ crashed (disks_of self.old) disk how) }
        ensures image { Unit {0} → OnOk result (IsImage (disks_of self.old) (disks_of self.new).reads) }
        ensures memory { Unit {0} → OnErr result (disks_of self.new ≡ disks_of self.old) }
        ensures time { Unit {0} → Elapses (moment_of self.old) (moment_of self.new) (LeftSince self.old) (LeftSince self.new) (disks_of self.new) }
        ensures no_fault { NoneRose self.old.faults self.new.faults (λ d. slice_index self.old.by_disk d) (λ d. slice_index self.new.by_disk d) }
        ensures sizes { (disks_of self.new).sizes ≡ (disks_of self.old).sizes }
        ensures keeps_telling { Unit {0} → Unit {0} }
    {
        steps::crash_disk(&mut self.disks, &mut self.entries, disk, how)?;
        Ok(())
    }

    fn blank(&mut self, disk: u32) -> Result<(), OutOfMemory>
        requires { disk < length (disks_of self.old).sizes }
        // It is noted, and is neither a call nor a fault. For want of memory nothing changes.
        ensures noted { OnOk result (self.new ≡ with_entries self.old (self.old.entries ++ Blanked disk ∷ [])) }
        ensures nothing { OnErr result (self.new ≡ self.old) }

        ensures blanked { Unit {0} → OnOk result (disks_of self.new ≡ blanked (disks_of self.old) disk) }
        ensures memory { Unit {0} → OnErr result (disks_of self.new ≡ disks_of self.old) }
        ensures time { Unit {0} → Elapses (moment_of self.old) (moment_of self.new) (LeftSince self.old) (LeftSince self.new) (disks_of self.new) }
        ensures no_fault { NoneRose self.old.faults self.new.faults (λ d. slice_index self.old.by_disk d) (λ d. slice_index self.new.by_disk d) }
        ensures sizes { (disks_of self.new).sizes ≡ (disks_of self.old).sizes }
        ensures keeps_telling { Unit {0} → Unit {0} }
    {
        steps::blank_disk(&mut self.disks, &mut self.entries, disk)?;
        Ok(())
    }
}
