//! Racks of disks.

ghost use Rattle.std.specs.Prelude.{◌≡◌, ℕ, ◌+◌, ◌/◌, ◌%◌, ◌^◌, ◌<◌, ◌≤◌, Bool, true, false, List, [], length, slice_index, OnOk, OnErr, IsErrOf};
ghost use Rattle.bx_base.specs.Faults.{Rose};
ghost use Rattle.bx_disk.specs.declared.fault.RackError.TheVariants.{Fault, OutOfMemory};
ghost use Rattle.bx_disk.specs.Disks.{Image, Disks, IsSector, IsImage, AreSectors, MayBeWritten, written, synced, shaped};
ghost use Rattle.bx_disk.specs.Moments.{Elapses};
ghost use Rattle.bx_disk.specs.Counts.{NoneFalls, NoneRose, BothRose};

use crate::fault::{DiskFault, RackError};

/// Disks of sectors of 512 bytes. A written sector is unsure until a sync of its disk succeeds: a crash may leave
/// any 512 bytes in it.
pub trait Rack {
    /// Whether it tells what its disks hold. A rack in memory does, and one that lies in files doesn't.
    ghost tells: { Self → Type 0 };

    /// Its disks. The sizes it tells always, and the rest where it tells what they hold.
    ghost state: { Self → Disks };

    /// The moment, as a number that doesn't fall.
    ghost moment: { Self → ℕ };

    /// What a crash at some moment from that one on might have left, during a call or between two.
    ghost left_since: { Self → ℕ → Image → Type 0 };

    /// How often it has failed.
    ghost faults: { Self → ℕ };

    /// How often each disk has failed.
    ghost faults_of: { Self → ℕ → ℕ };

    /// How many disks there are.
    fn disks(&self) -> u32
        ensures { result ≡ length (state self.now).sizes };

    /// How many sectors a disk has.
    fn sectors(&self, disk: u32) -> u64
        requires { disk < length (state self.now).sizes }
        ensures { result ≡ slice_index (state self.now).sizes disk };

    /// Reads sectors, which changes no disk. A fault leaves any bytes in the slice.
    fn read(&mut self, disk: u32, sector: u64, into: &mut [u8]) -> Result<(), DiskFault>
        requires disk { disk < length (state self.old).sizes }
        requires whole { length into.old % 512 ≡ 0 }
        requires range { sector + length into.old / 512 ≤ slice_index (state self.old).sizes disk }
        ensures bytes { tells self.old → OnOk result (AreSectors ((state self.old).reads disk) sector (length into.old / 512) into.new) }
        ensures stays { state self.new ≡ state self.old }
        ensures time { tells self.old → Elapses (moment self.old) (moment self.new) (left_since self.old) (left_since self.new) (state self.new) }
        ensures fault { OnErr result (BothRose (faults self.old) (faults self.new) (faults_of self.old) (faults_of self.new) disk) }
        ensures later { NoneFalls (faults self.old) (faults self.new) (faults_of self.old) (faults_of self.new) }
        ensures no_fault { OnOk result (NoneRose (faults self.old) (faults self.new) (faults_of self.old) (faults_of self.new)) }
        ensures sizes { (state self.new).sizes ≡ (state self.old).sizes }
        ensures keeps_telling { tells self.old → tells self.new };

    /// Writes sectors, which are unsure from then on. After a fault each of them is unsure and still has what it held
    /// at its last sync, or is as it was. For want of memory nothing is written.
    fn write(&mut self, disk: u32, sector: u64, bytes: &[u8]) -> Result<(), RackError>
        requires disk { disk < length (state self.old).sizes }
        requires whole { length bytes.now % 512 ≡ 0 }
        requires range { sector + length bytes.now / 512 ≤ slice_index (state self.old).sizes disk }
        ensures written { tells self.old → OnOk result (state self.new ≡ written (state self.old) disk sector bytes.now) }
        ensures torn { tells self.old → OnErr result (MayBeWritten (state self.old) (state self.new) disk sector (length bytes.now / 512)) }
        ensures memory { tells self.old → IsErrOf result OutOfMemory → state self.new ≡ state self.old }
        ensures time { tells self.old → Elapses (moment self.old) (moment self.new) (left_since self.old) (left_since self.new) (state self.new) }
        ensures fault { IsErrOf result Fault → BothRose (faults self.old) (faults self.new) (faults_of self.old) (faults_of self.new) disk }
        ensures later { NoneFalls (faults self.old) (faults self.new) (faults_of self.old) (faults_of self.new) }
        ensures memory_counts { IsErrOf result OutOfMemory → NoneRose (faults self.old) (faults self.new) (faults_of self.old) (faults_of self.new) }
        ensures no_fault { OnOk result (NoneRose (faults self.old) (faults self.new) (faults_of self.old) (faults_of self.new)) }
        ensures sizes { (state self.new).sizes ≡ (state self.old).sizes }
        ensures keeps_telling { tells self.old → tells self.new };

    /// Makes the sectors of a disk sure. A fault leaves all as it was.
    fn sync(&mut self, disk: u32) -> Result<(), DiskFault>
        requires disk { disk < length (state self.old).sizes }
        ensures synced { tells self.old → OnOk result (state self.new ≡ synced (state self.old) disk) }
        ensures stays { tells self.old → OnErr result (state self.new ≡ state self.old) }
        ensures time { tells self.old → Elapses (moment self.old) (moment self.new) (left_since self.old) (left_since self.new) (state self.new) }
        ensures fault { OnErr result (BothRose (faults self.old) (faults self.new) (faults_of self.old) (faults_of self.new) disk) }
        ensures later { NoneFalls (faults self.old) (faults self.new) (faults_of self.old) (faults_of self.new) }
        ensures no_fault { OnOk result (NoneRose (faults self.old) (faults self.new) (faults_of self.old) (faults_of self.new)) }
        ensures sizes { (state self.new).sizes ≡ (state self.old).sizes }
        ensures keeps_telling { tells self.old → tells self.new };

    /// Makes the disks anew, one for each size, all of their sectors zero and sure. A fault counts in all alone. After
    /// an error the rack isn't used again.
    fn shape(&mut self, sizes: &[u64]) -> Result<(), RackError>
        requires { length sizes.now < 2 ^ 32 }
        ensures shaped { tells self.old → OnOk result (state self.new ≡ shaped sizes.now) }
        ensures sizes { OnOk result ((state self.new).sizes ≡ sizes.now) }
        ensures time { tells self.old → Elapses (moment self.old) (moment self.new) (left_since self.old) (left_since self.new) (state self.new) }
        ensures fault { IsErrOf result Fault → Rose (faults self.old) (faults self.new) }
        ensures alone { (d : ℕ) → faults_of self.new d ≡ faults_of self.old d }
        ensures later { NoneFalls (faults self.old) (faults self.new) (faults_of self.old) (faults_of self.new) }
        ensures memory_counts { IsErrOf result OutOfMemory → NoneRose (faults self.old) (faults self.new) (faults_of self.old) (faults_of self.new) }
        ensures no_fault { OnOk result (NoneRose (faults self.old) (faults self.new) (faults_of self.old) (faults_of self.new)) }
        ensures keeps_telling { tells self.old → tells self.new };

    /// A sector has 512 bytes.
    ghost whole: { (rack : Self) (d s : ℕ) → tells rack → s < slice_index (state rack).sizes d → IsSector ((state rack).reads d s) };

    /// Past the end of a disk there is nothing.
    ghost beyond: { (rack : Self) (d s : ℕ) → tells rack → slice_index (state rack).sizes d ≤ s → (state rack).reads d s ≡ [] };

    /// Only sectors that are there are unsure.
    ghost there: { (rack : Self) (d s : ℕ) → tells rack → (state rack).unsure d s ≡ true → s < slice_index (state rack).sizes d };

    /// What a sure sector holds is what it reads as.
    ghost settled: { (rack : Self) (d s : ℕ) → tells rack → (state rack).unsure d s ≡ false → (state rack).held d s ≡ (state rack).reads d s };

    /// This moment is one of those since an earlier one.
    ghost counts_now: { (rack : Self) (t : ℕ) (image : Image) → tells rack → t ≤ moment rack → IsImage (state rack) image → left_since rack t image };

    /// Since this moment there is no other.
    ghost only_now: { (rack : Self) (image : Image) → tells rack → left_since rack (moment rack) image → IsImage (state rack) image };
}
