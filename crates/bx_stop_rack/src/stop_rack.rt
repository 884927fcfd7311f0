//! A rack that stops.

ghost use Rattle.std.specs.Prelude.{◌≡◌, ℕ, ◌+◌, ◌-◌, ◌/◌, ◌%◌, ◌^◌, ◌<◌, ◌≤◌, length, replicate, slice_index, IsErr, IsErrOf, OnOk, OnErr};
ghost use Rattle.bx_base.specs.Faults.{Rose, count_up};
ghost use Rattle.bx_disk.specs.declared.fault.RackError.TheVariants.{Fault, OutOfMemory};
ghost use Rattle.bx_disk.specs.Disks.{AreSectors, MayBeWritten, written, synced, shaped};
ghost use Rattle.bx_disk.specs.Moments.{Elapses};
ghost use Rattle.bx_disk.specs.Counts.{NoneFalls, NoneRose, BothRose};
ghost use Rattle.bx_disk.specs.Stops.{with_failed, each_with_failed, counted_on};

use bx_disk::{DiskFault, Rack, RackError};

/// How many counts of failed calls a rack that stops has. The last one is for all disks that have none of their own.
const COUNTS: usize = 16;

// Counts a failed call on a disk.
fn count_on(failed_on: &mut [u64], disk: u32)
    requires { 15 < length failed_on.old }
    ensures value { failed_on.new ≡ counted_on failed_on.old disk }
    ensures later { (d : ℕ) → slice_index failed_on.old d ≤ slice_index failed_on.new d }
{
    let at = (disk as usize).min(COUNTS - 1);
    failed_on[at] = failed_on[at].saturating_add(1);
}

/// A rack that passes so many calls to another, and then answers a fault to every one. The disks are those of the
/// other. A call that it failed counts on the disk that it names. It takes no memory, so the disks from 15 on share
/// one count: a call on one of them counts on all of them.
#[derive(Drop)]
pub struct StopRack<R> {
    inner: R,
    left: u64,
    failed: u64,
    failed_on: [u64; COUNTS],
}

impl<R> StopRack<R> {
    /// A rack that passes so many calls.
    pub fn new(inner: R, calls: u64) -> StopRack<R>
        ensures { result ≡ record { inner = inner; left = calls; failed = 0; failed_on = replicate 16 0 } }
    {
        StopRack {
            inner,
            left: calls,
            failed: 0,
            failed_on: [0; COUNTS],
        }
    }

    /// The other rack.
    pub fn into_inner(self) -> R
        ensures { result ≡ self.inner }
    {
        self.inner
    }

    /// Lets a call on a disk pass, where one is left; else it fails, and counts on the disk.
    fn pass(&mut self, disk: u32) -> Result<(), DiskFault>
        ensures passed { OnOk result ((0 < self.old.left) × (self.new ≡ record { inner = self.old.inner; left = self.old.left - 1; failed = self.old.failed; failed_on = self.old.failed_on })) }
        ensures stopped { OnErr result ((self.old.left ≡ 0) × (self.new ≡ record { inner = self.old.inner; left = 0; failed = count_up self.old.failed; failed_on = counted_on self.old.failed_on disk })) }
        ensures later { (d : ℕ) → slice_index self.old.failed_on d ≤ slice_index self.new.failed_on d }
    {
        if self.left == 0 {
            self.failed = self.failed.saturating_add(1);
            count_on(&mut self.failed_on, disk);
            return Err(DiskFault);
        }
        self.left -= 1;
        Ok(())
    }
}

impl<R: Rack> Rack for StopRack<R> {
    ghost tells = { λ rack. R.tells rack.inner };

    ghost state = { λ rack. R.state rack.inner };

    ghost moment = { λ rack. R.moment rack.inner };

    ghost left_since = { λ rack. R.left_since rack.inner };

    ghost faults = { λ rack. with_failed (R.faults rack.inner) rack.failed };

    ghost faults_of = { λ rack. each_with_failed (R.faults_of rack.inner) rack.failed_on };

    ghost whole = { λ rack d s tells within. R.whole rack.inner d s tells within };

    ghost beyond = { λ rack d s tells past. R.beyond rack.inner d s tells past };

    ghost there = { λ rack d s tells unsure. R.there rack.inner d s tells unsure };

    ghost settled = { λ rack d s tells sure. R.settled rack.inner d s tells sure };

    ghost counts_now = { λ rack t image tells late is. R.counts_now rack.inner t image tells late is };

    ghost only_now = { λ rack image tells left. R.only_now rack.inner image tells left };

    fn disks(&self) -> u32 {
        self.inner.disks()
    }

    fn sectors(&self, disk: u32) -> u64 {
        self.inner.sectors(disk)
    }

    fn read(&mut self, disk: u32, sector: u64, into: &mut [u8]) -> Result<(), DiskFault>
        requires disk { disk < length (R.state self.old.inner).sizes }
        requires whole { length into.old % 512 ≡ 0 }
        requires range { sector + length into.old / 512 ≤ slice_index (R.state self.old.inner).sizes disk }
        ensures stopped { self.old.left ≡ 0 → IsErr result }
        ensures stays_stopped { self.old.left ≡ 0 → self.new ≡ record { inner = self.old.inner; left = 0; failed = count_up self.old.failed; failed_on = counted_on self.old.failed_on disk } }
        ensures passed { 0 < self.old.left → self.new ≡ record { inner = self.new.inner; left = self.old.left - 1; failed = self.old.failed; failed_on = self.old.failed_on } }

        ensures bytes { R.tells self.old.inner → OnOk result (AreSectors ((R.state self.old.inner).reads disk) sector (length into.old / 512) into.new) }
        ensures stays { R.state self.new.inner ≡ R.state self.old.inner }
        ensures time { R.tells self.old.inner → Elapses (R.moment self.old.inner) (R.moment self.new.inner) (R.left_since self.old.inner) (R.left_since self.new.inner) (R.state self.new.inner) }
        ensures fault { OnErr result (BothRose (with_failed (R.faults self.old.inner) self.old.failed) (with_failed (R.faults self.new.inner) self.new.failed) (each_with_failed (R.faults_of self.old.inner) self.old.failed_on) (each_with_failed (R.faults_of self.new.inner) self.new.failed_on) disk) }
        ensures later { NoneFalls (with_failed (R.faults self.old.inner) self.old.failed) (with_failed (R.faults self.new.inner) self.new.failed) (each_with_failed (R.faults_of self.old.inner) self.old.failed_on) (each_with_failed (R.faults_of self.new.inner) self.new.failed_on) }
        ensures no_fault { OnOk result (NoneRose (with_failed (R.faults self.old.inner) self.old.failed) (with_failed (R.faults self.new.inner) self.new.failed) (each_with_failed (R.faults_of self.old.inner) self.old.failed_on) (each_with_failed (R.faults_of self.new.inner) self.new.failed_on)) }
        ensures sizes { (R.state self.new.inner).sizes ≡ (R.state self.old.inner).sizes }
        ensures keeps_telling { R.tells self.old.inner → R.tells self.new.inner }
    {
        self.pass(disk)?;
        self.inner.read(disk, sector, into)
    }

    fn write(&mut self, disk: u32, sector: u64, bytes: &[u8]) -> Result<(), RackError>
        requires disk { disk < length (R.state self.old.inner).sizes }
        requires whole { length bytes.now % 512 ≡ 0 }
        requires range { sector + length bytes.now / 512 ≤ slice_index (R.state self.old.inner).sizes disk }
        ensures stopped { self.old.left ≡ 0 → IsErrOf result Fault }
        ensures stays_stopped { self.old.left ≡ 0 → self.new ≡ record { inner = self.old.inner; left = 0; failed = count_up self.old.failed; failed_on = counted_on self.old.failed_on disk } }
        ensures passed { 0 < self.old.left → self.new ≡ record { inner = self.new.inner; left = self.old.left - 1; failed = self.old.failed; failed_on = self.old.failed_on } }

        ensures written { R.tells self.old.inner → OnOk result (R.state self.new.inner ≡ written (R.state self.old.inner) disk sector bytes.now) }
        ensures torn { R.tells self.old.inner → OnErr result (MayBeWritten (R.state self.old.inner) (R.state self.new.inner) disk sector (length bytes.now / 512)) }
        ensures memory { R.tells self.old.inner → IsErrOf result OutOfMemory → R.state self.new.inner ≡ R.state self.old.inner }
        ensures time { R.tells self.old.inner → Elapses (R.moment self.old.inner) (R.moment self.new.inner) (R.left_since self.old.inner) (R.left_since self.new.inner) (R.state self.new.inner) }
        ensures fault { IsErrOf result Fault → BothRose (with_failed (R.faults self.old.inner) self.old.failed) (with_failed (R.faults self.new.inner) self.new.failed) (each_with_failed (R.faults_of self.old.inner) self.old.failed_on) (each_with_failed (R.faults_of self.new.inner) self.new.failed_on) disk }
        ensures later { NoneFalls (with_failed (R.faults self.old.inner) self.old.failed) (with_failed (R.faults self.new.inner) self.new.failed) (each_with_failed (R.faults_of self.old.inner) self.old.failed_on) (each_with_failed (R.faults_of self.new.inner) self.new.failed_on) }
        ensures memory_counts { IsErrOf result OutOfMemory → NoneRose (with_failed (R.faults self.old.inner) self.old.failed) (with_failed (R.faults self.new.inner) self.new.failed) (each_with_failed (R.faults_of self.old.inner) self.old.failed_on) (each_with_failed (R.faults_of self.new.inner) self.new.failed_on) }
        ensures no_fault { OnOk result (NoneRose (with_failed (R.faults self.old.inner) self.old.failed) (with_failed (R.faults self.new.inner) self.new.failed) (each_with_failed (R.faults_of self.old.inner) self.old.failed_on) (each_with_failed (R.faults_of self.new.inner) self.new.failed_on)) }
        ensures sizes { (R.state self.new.inner).sizes ≡ (R.state self.old.inner).sizes }
        ensures keeps_telling { R.tells self.old.inner → R.tells self.new.inner }
    {
        self.pass(disk)?;
        self.inner.write(disk, sector, bytes)
    }

    fn sync(&mut self, disk: u32) -> Result<(), DiskFault>
        requires disk { disk < length (R.state self.old.inner).sizes }
        ensures stopped { self.old.left ≡ 0 → IsErr result }
        ensures stays_stopped { self.old.left ≡ 0 → self.new ≡ record { inner = self.old.inner; left = 0; failed = count_up self.old.failed; failed_on = counted_on self.old.failed_on disk } }
        ensures passed { 0 < self.old.left → self.new ≡ record { inner = self.new.inner; left = self.old.left - 1; failed = self.old.failed; failed_on = self.old.failed_on } }

        ensures synced { R.tells self.old.inner → OnOk result (R.state self.new.inner ≡ synced (R.state self.old.inner) disk) }
        ensures stays { R.tells self.old.inner → OnErr result (R.state self.new.inner ≡ R.state self.old.inner) }
        ensures time { R.tells self.old.inner → Elapses (R.moment self.old.inner) (R.moment self.new.inner) (R.left_since self.old.inner) (R.left_since self.new.inner) (R.state self.new.inner) }
        ensures fault { OnErr result (BothRose (with_failed (R.faults self.old.inner) self.old.failed) (with_failed (R.faults self.new.inner) self.new.failed) (each_with_failed (R.faults_of self.old.inner) self.old.failed_on) (each_with_failed (R.faults_of self.new.inner) self.new.failed_on) disk) }
        ensures later { NoneFalls (with_failed (R.faults self.old.inner) self.old.failed) (with_failed (R.faults self.new.inner) self.new.failed) (each_with_failed (R.faults_of self.old.inner) self.old.failed_on) (each_with_failed (R.faults_of self.new.inner) self.new.failed_on) }
        ensures no_fault { OnOk result (NoneRose (with_failed (R.faults self.old.inner) self.old.failed) (with_failed (R.faults self.new.inner) self.new.failed) (each_with_failed (R.faults_of self.old.inner) self.old.failed_on) (each_with_failed (R.faults_of self.new.inner) self.new.failed_on)) }
        ensures sizes { (R.state self.new.inner).sizes ≡ (R.state self.old.inner).sizes }
        ensures keeps_telling { R.tells self.old.inner → R.tells self.new.inner }
    {
        self.pass(disk)?;
        self.inner.sync(disk)
    }

    fn shape(&mut self, sizes: &[u64]) -> Result<(), RackError>
        requires { length sizes.now < 2 ^ 32 }
        ensures stopped { self.old.left ≡ 0 → IsErrOf result Fault }
        ensures stays_stopped { self.old.left ≡ 0 → self.new ≡ record { inner = self.old.inner; left = 0; failed = count_up self.old.failed; failed_on = self.old.failed_on } }
        ensures passed { 0 < self.old.left → self.new ≡ record { inner = self.new.inner; left = self.old.left - 1; failed = self.old.failed; failed_on = self.old.failed_on } }

        ensures shaped { R.tells self.old.inner → OnOk result (R.state self.new.inner ≡ shaped sizes.now) }
        ensures sizes { OnOk result ((R.state self.new.inner).sizes ≡ sizes.now) }
        ensures time { R.tells self.old.inner → Elapses (R.moment self.old.inner) (R.moment self.new.inner) (R.left_since self.old.inner) (R.left_since self.new.inner) (R.state self.new.inner) }
        ensures fault { IsErrOf result Fault → Rose (with_failed (R.faults self.old.inner) self.old.failed) (with_failed (R.faults self.new.inner) self.new.failed) }
        ensures alone { (d : ℕ) → each_with_failed (R.faults_of self.new.inner) self.new.failed_on d ≡ each_with_failed (R.faults_of self.old.inner) self.old.failed_on d }
        ensures later { NoneFalls (with_failed (R.faults self.old.inner) self.old.failed) (with_failed (R.faults self.new.inner) self.new.failed) (each_with_failed (R.faults_of self.old.inner) self.old.failed_on) (each_with_failed (R.faults_of self.new.inner) self.new.failed_on) }
        ensures memory_counts { IsErrOf result OutOfMemory → NoneRose (with_failed (R.faults self.old.inner) self.old.failed) (with_failed (R.faults self.new.inner) self.new.failed) (each_with_failed (R.faults_of self.old.inner) self.old.failed_on) (each_with_failed (R.faults_of self.new.inner) self.new.failed_on) }
        ensures no_fault { OnOk result (NoneRose (with_failed (R.faults self.old.inner) self.old.failed) (with_failed (R.faults self.new.inner) self.new.failed) (each_with_failed (R.faults_of self.old.inner) self.old.failed_on) (each_with_failed (R.faults_of self.new.inner) self.new.failed_on)) }
        ensures keeps_telling { R.tells self.old.inner → R.tells self.new.inner }
    {
        if self.left == 0 {
            self.failed = self.failed.saturating_add(1);
            return Err(RackError::Fault);
        }
        self.left -= 1;
        self.inner.shape(sizes)
    }
}
