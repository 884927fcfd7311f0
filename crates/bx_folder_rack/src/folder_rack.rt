//! A rack in a folder.

ghost use Rattle.std.specs.Prelude.{◌≡◌, ℕ, ◌<◌, ◌≤◌, length, slice_index, slice_set, IfOk, OnOk};
ghost use Rattle.bx_base.specs.Faults.{count_up};

use crate::disk_file::DiskFile;
use crate::{finding, making};
use bx_base::OutOfMemory;
use bx_disk::{DiskFault, Rack, RackError};
use std::alloc::Global;
use std::io::ErrorKind;
use std::marker::Model;
use std::os::unix::fs::FileExt;
use std::rt::Files;

/// A rack whose disks are the files `disk0`, `disk1` and so on of a folder, up to the first that is missing; without the folder it has none. A disk has as
/// many sectors as its file has whole ones. It tells nothing of what its disks hold. Each error of a file is a fault; but where disks are found or
/// made anew, errors of the kind `OutOfMemory` are want of memory. A file that can't be opened is a disk all of whose calls fail.
#[derive(Drop)]
pub struct FolderRack<'a, R: Files>
where
    R::File: FileExt,
{
    alloc: Global,
    files: &'a R,
    folder: &'a str,
    disks: Vec<DiskFile<R::File>>,
    sizes: Vec<u64>,
    faults: u64,
    by_disk: Vec<u64>,
}

impl<'a, R: Files> Model for FolderRack<'a, R>
where
    R::File: FileExt,
{
    ghost use Rattle.std.specs.Prelude.{length};
    ghost use Rattle.bx_folder_rack.specs.Folder.{Folder, AreCounted};

    ghost Value = { Folder };

    ghost view = { λ rack. record { sizes = rack.sizes.items; faults = rack.faults; by_disk = rack.by_disk.items } };

    ghost invariant = { λ rack. AreCounted (length rack.sizes.items) (length rack.disks.items) (length rack.by_disk.items) };
}

impl<'a, R: Files> FolderRack<'a, R>
where
    R::File: FileExt,
{
    ghost use Rattle.std.specs.Prelude.{◌≡◌, IfOk};

    /// The rack of a folder, with no fault so far.
    pub fn open(
        alloc: Global,
        files: &'a R,
        folder: &'a str,
    ) -> Result<FolderRack<'a, R>, OutOfMemory>
        ensures { IfOk result (λ rack. rack.faults ≡ 0) }
    {
        let found = finding::find(alloc, files, folder)?;
        let by_disk = Vec::from_elem(alloc, 0u64, found.disks.len())?;
        Ok(FolderRack {
            alloc,
            files,
            folder,
            disks: found.disks,
            sizes: found.sizes,
            faults: 0,
            by_disk,
        })
    }
}

impl<R: Files> Rack for FolderRack<'_, R>
where
    R::File: FileExt,
{
    ghost use Rattle.std.specs.Prelude.{slice_index};
    ghost use Rattle.bx_folder_rack.specs.Folder.{untold};

    ghost tells = { λ _. ⊥ };

    ghost state = { λ rack. untold rack.sizes };

    ghost moment = { λ _. 0 };

    ghost left_since = { λ _ _ _. ⊥ };

    ghost faults = { λ rack. rack.faults };

    ghost faults_of = { λ rack d. slice_index rack.by_disk d };

    ghost whole = { λ rack d s tells. absurd tells };

    ghost beyond = { λ rack d s tells. absurd tells };

    ghost there = { λ rack d s tells. absurd tells };

    ghost settled = { λ rack d s tells. absurd tells };

    ghost counts_now = { λ rack t image tells. absurd tells };

    ghost only_now = { λ rack image tells. absurd tells };

    fn disks(&self) -> u32 {
        self.sizes.len() as u32
    }

    fn sectors(&self, disk: u32) -> u64 {
        self.sizes[disk as usize]
    }

    fn read(&mut self, disk: u32, sector: u64, into: &mut [u8]) -> Result<(), DiskFault> {
        match self.disks[disk as usize].read(sector, into) {
            Ok(()) => Ok(()),
            Err(_) => {
                self.faults = self.faults.saturating_add(1);
                count(&mut self.by_disk, disk);
                Err(DiskFault)
            }
        }
    }

    fn write(&mut self, disk: u32, sector: u64, bytes: &[u8]) -> Result<(), RackError> {
        match self.disks[disk as usize].write(sector, bytes) {
            Ok(()) => Ok(()),
            Err(_) => {
                self.faults = self.faults.saturating_add(1);
                count(&mut self.by_disk, disk);
                Err(RackError::Fault)
            }
        }
    }

    fn sync(&mut self, disk: u32) -> Result<(), DiskFault> {
        match self.disks[disk as usize].sync() {
            Ok(()) => Ok(()),
            Err(_) => {
                self.faults = self.faults.saturating_add(1);
                count(&mut self.by_disk, disk);
                Err(DiskFault)
            }
        }
    }

    fn shape(&mut self, sizes: &[u64]) -> Result<(), RackError> {
        let counts = self.by_disk.len().max(sizes.len());
        let copy = copy_of(self.alloc, sizes)?;
        make_counts(&mut self.by_disk, counts)?;
        self.sizes = Vec::new(self.alloc);
        self.disks = Vec::new(self.alloc);
        match making::make(self.alloc, self.files, self.folder, sizes) {
            Ok(disks) => {
                self.disks = disks;
                self.sizes = copy;
                Ok(())
            }
            Err(error) if error.kind() == ErrorKind::OutOfMemory => Err(RackError::OutOfMemory),
            Err(_) => {
                self.faults = self.faults.saturating_add(1);
                Err(RackError::Fault)
            }
        }
    }
}

/// Counts a fault of a disk.
fn count(by_disk: &mut Vec<u64>, disk: u32)
    requires { disk < length by_disk.old.items }
    ensures value { by_disk.new.items ≡ slice_set by_disk.old.items disk (count_up (slice_index by_disk.old.items disk)) }
    ensures later { (d : ℕ) → slice_index by_disk.old.items d ≤ slice_index by_disk.new.items d }
{
    let at = disk as usize;
    by_disk[at] = by_disk[at].saturating_add(1);
}

/// Makes counts of 0 for disks that have none, so many in all.
fn make_counts(by_disk: &mut Vec<u64>, counts: usize) -> Result<(), OutOfMemory>
    requires { length by_disk.old.items ≤ counts }
    ensures same { (d : ℕ) → slice_index by_disk.new.items d ≡ slice_index by_disk.old.items d }
    ensures long { OnOk result (length by_disk.new.items ≡ counts) }
    ensures longer { length by_disk.old.items ≤ length by_disk.new.items }
{
    by_disk.resize(counts, 0)?;
    Ok(())
}

/// A copy of sizes.
fn copy_of(alloc: Global, sizes: &[u64]) -> Result<Vec<u64>, OutOfMemory>
    ensures { IfOk result (λ copy. copy.items ≡ sizes.now) }
{
    Ok(Vec::from_slice(alloc, sizes)?)
}
