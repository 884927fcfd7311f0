//! A rack whose writes are torn.

ghost use Rattle.std.specs.Prelude.{◌≡◌, ◌/◌, ◌%◌, ◌+◌, ◌≤◌, ◌<◌, length, slice_index};
ghost use Rattle.bx_disk.specs.Disks.{MayBeWritten};
ghost use Rattle.bx_disk.specs.Moments.{Elapses};
ghost use Rattle.bx_disk.specs.Counts.{NoneFalls};
ghost use Rattle.bx_disk.specs.Stops.{with_failed};

use bx_disk::{DiskFault, Rack, RackError};

/// A rack that passes so many writes to another. Of each later one it writes the first half of the sectors and then
/// answers a fault, which counts on each disk.
#[derive(Drop)]
pub struct TornRack<R> {
    /// The other rack.
    pub inner: R,
    left: u64,
    failed: u64,
}

impl<R> TornRack<R> {
    /// A rack that passes so many writes.
    pub fn new(inner: R, writes: u64) -> TornRack<R>
        ensures { result ≡ record { inner = inner; left = writes; failed = 0 } }
    {
        TornRack {
            inner,
            left: writes,
            failed: 0,
        }
    }
}

// Writes the first half of the sectors, if that goes well.
fn write_half<R: Rack>(rack: &mut R, disk: u32, sector: u64, bytes: &[u8])
    requires disk { disk < length (R.state rack.old).sizes }
    requires whole { length bytes.now % 512 ≡ 0 }
    requires range { sector + length bytes.now / 512 ≤ slice_index (R.state rack.old).sizes disk }
    ensures torn { R.tells rack.old → MayBeWritten (R.state rack.old) (R.state rack.new) disk sector (length bytes.now / 512) }
    ensures time { R.tells rack.old → Elapses (R.moment rack.old) (R.moment rack.new) (R.left_since rack.old) (R.left_since rack.new) (R.state rack.new) }
    ensures later { NoneFalls (R.faults rack.old) (R.faults rack.new) (R.faults_of rack.old) (R.faults_of rack.new) }
    ensures sizes { (R.state rack.new).sizes ≡ (R.state rack.old).sizes }
    ensures keeps_telling { R.tells rack.old → R.tells rack.new }
{
    let half = bytes.len() / 1024 * 512;
    let _told = rack.write(disk, sector, &bytes[..half]);
}

impl<R: Rack> Rack for TornRack<R> {
    ghost tells = { λ rack. R.tells rack.inner };

    ghost state = { λ rack. R.state rack.inner };

    ghost moment = { λ rack. R.moment rack.inner };

    ghost left_since = { λ rack. R.left_since rack.inner };

    ghost faults = { λ rack. with_failed (R.faults rack.inner) rack.failed };

    ghost faults_of = { λ rack d. with_failed (R.faults_of rack.inner d) rack.failed };

    ghost whole = { λ rack d s tells within. R.whole rack.inner d s tells within };

    ghost beyond = { λ rack d s tells past. R.beyond rack.inner d s tells past };

    ghost there = { λ rack d s tells unsure. R.there rack.inner d s tells unsure };

    ghost settled = { λ rack d s tells sure. R.settled rack.inner d s tells sure };

    ghost counts_now = { λ rack t image tells late is. R.counts_now rack.inner t image tells late is };

    ghost only_now = { λ rack image tells left. R.only_now rack.inner image tells left };

    fn disks(&self) -> u32 {
        self.inner.disks()
    }

    fn sectors(&self, disk: u32) -> u64 {
        self.inner.sectors(disk)
    }

    fn read(&mut self, disk: u32, sector: u64, into: &mut [u8]) -> Result<(), DiskFault> {
        self.inner.read(disk, sector, into)
    }

    fn write(&mut self, disk: u32, sector: u64, bytes: &[u8]) -> Result<(), RackError> {
        if self.left == 0 {
            write_half(&mut self.inner, disk, sector, bytes);
            self.failed = self.failed.saturating_add(1);
            return Err(RackError::Fault);
        }
        self.left -= 1;
        self.inner.write(disk, sector, bytes)
    }

    fn sync(&mut self, disk: u32) -> Result<(), DiskFault> {
        self.inner.sync(disk)
    }

    fn shape(&mut self, sizes: &[u64]) -> Result<(), RackError> {
        self.inner.shape(sizes)
    }
}
