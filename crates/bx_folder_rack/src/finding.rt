//! The disks that a folder has.

ghost use Rattle.std.specs.Prelude.{◌≡◌, ◌<◌, ◌^◌, IfOk, length};

use crate::disk_file::{DiskFile, SECTOR};
use bx_base::OutOfMemory;
use std::alloc::{AllocError, Global};
use std::fs::OpenOptions;
use std::io::ErrorKind;
use std::os::unix::fs::FileExt;
use std::rt::Files;
use std::{fs, io};

/// The sectors of a disk whose size can't be asked for: more than a file can have.
const ALL: u64 = u64::MAX / SECTOR;

/// What a folder has.
#[derive(Drop)]
pub struct Found<F: FileExt + fs::OpenFile + Drop> {
    /// The disks.
    pub disks: Vec<DiskFile<F>>,
    /// How many sectors each has.
    pub sizes: Vec<u64>,
}

/// The path of a disk.
pub fn path_of(alloc: Global, folder: &str, disk: u32) -> Result<String, AllocError> {
    format!(in alloc; "{folder}/disk{disk}")
}

/// The disks of the folder, up to the first that is missing. A file that can be read and not be written is a disk whose writes fail, and
/// one that can't be opened a disk all of whose calls fail. Where not even the size of a file can be asked for, as in a folder that may not be
/// searched, its disk is the last.
pub fn find<R: Files>(alloc: Global, files: &R, folder: &str) -> Result<Found<R::File>, OutOfMemory>
where
    R::File: FileExt,
    ensures few { IfOk result (λ found. length found.disks.items < 2 ^ 32) }
    ensures same { IfOk result (λ found. length found.sizes.items ≡ length found.disks.items) }
{
    let mut disks = Vec::new(alloc);
    let mut sizes = Vec::new(alloc);
    for disk in 0..u32::MAX {
        let path = path_of(alloc, folder, disk)?;
        let Some(found) = open(files, path.as_str())? else {
            break;
        };
        disks.push(found)?;
        let size = size_of(files, path.as_str());
        sizes.push(size.unwrap_or(ALL))?;
        if size.is_none() {
            break;
        }
    }
    Ok(Found { disks, sizes })
}

/// The disk in a file, or none where the file is missing.
fn open<R: Files>(files: &R, path: &str) -> Result<Option<DiskFile<R::File>>, OutOfMemory>
where
    R::File: FileExt,
{
    match open_file(files, path) {
        Ok(file) => Ok(Some(DiskFile::new(Some(file)))),
        Err(error) => match error.kind() {
            ErrorKind::NotFound => Ok(None),
            ErrorKind::OutOfMemory => Err(OutOfMemory),
            _ => Ok(Some(DiskFile::new(None))),
        },
    }
}

/// Opens a file to be read and written, or else to be read.
fn open_file<R: Files>(files: &R, path: &str) -> io::Result<R::File> {
    let both = OpenOptions::new().read(true).write(true).open(files, path);
    match both {
        Err(error) if error.kind() != ErrorKind::NotFound => fs::open(files, path),
        opened => opened,
    }
}

/// How many whole sectors a file has, where that can be asked for.
fn size_of<R: Files>(files: &R, path: &str) -> Option<u64> {
    let metadata = fs::metadata(files, path).ok()?;
    Some(metadata.len() / SECTOR)
}
