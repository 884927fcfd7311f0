//! The disks of a folder, made anew.

ghost use Rattle.std.specs.Prelude.{◌≡◌, ◌<◌, ◌^◌, IfOk, length};

use crate::disk_file::{DiskFile, SECTOR, place_of};
use crate::finding::path_of;
use std::alloc::Global;
use std::fs::{File, OpenFile, OpenOptions};
use std::io::ErrorKind;
use std::os::unix::fs::FileExt;
use std::rt::Files;
use std::{fs, io};

/// How many sectors are written at once, and how many bytes these are.
const PIECE: u64 = 2048;

const PIECE_BYTES: usize = 1_048_576;

/// Makes the folder, if it is missing, and its disks anew, all zeros written and safe. The old disks go first, disk 0 before all others, and the
/// new disk 0 is made last: where this ends early, the folder has no disk 0, or one of zeros.
pub fn make<R: Files>(
    alloc: Global,
    files: &R,
    folder: &str,
    sizes: &[u64],
) -> io::Result<Vec<DiskFile<R::File>>>
where
    R::File: FileExt,
    requires { length sizes.now < 2 ^ 32 }
    ensures { IfOk result (λ disks. length disks.items ≡ length sizes.now) }
{
    make_folder(alloc, files, folder)?;
    remove_disks(alloc, files, folder, sizes.len() as u32)?;
    make_files(alloc, files, folder, sizes)?;
    open_made(alloc, files, folder, sizes.len() as u32)
}

/// Makes the folder, if it is missing, and has what holds it on the disk.
fn make_folder<R: Files>(alloc: Global, files: &R, folder: &str) -> io::Result<()> {
    match fs::create_dir(files, folder) {
        Err(error) if error.kind() != ErrorKind::AlreadyExists => return Err(error),
        _ => {}
    }
    let parent = format!(in alloc; "{folder}/..")?;
    sync_folder(files, parent.as_str())
}

/// Has what files a folder has on the disk.
fn sync_folder<R: Files>(files: &R, folder: &str) -> io::Result<()> {
    fs::open(files, folder)?.sync_all()
}

/// Removes each disk: disk 0 before all others, up to the first that is missing, and no fewer than so many and one more.
fn remove_disks<R: Files>(alloc: Global, files: &R, folder: &str, disks: u32) -> io::Result<()> {
    for disk in 0..u32::MAX {
        let was_there = remove(files, path_of(alloc, folder, disk)?.as_str())?;
        if disk == 0 {
            sync_folder(files, folder)?;
        }
        if !was_there && disk >= disks {
            break;
        }
    }
    Ok(())
}

/// Removes a file, and says whether it was there.
fn remove<R: Files>(files: &R, path: &str) -> io::Result<bool> {
    match fs::remove_file(files, path) {
        Ok(()) => Ok(true),
        Err(error) if error.kind() == ErrorKind::NotFound => Ok(false),
        Err(error) => Err(error),
    }
}

/// Makes the files of disks that are missing, the last first.
fn make_files<R: Files>(alloc: Global, files: &R, folder: &str, sizes: &[u64]) -> io::Result<()>
where
    R::File: FileExt,
    requires { length sizes.now < 2 ^ 32 }
{
    let zeros = vec![in alloc; 0u8; PIECE_BYTES]?;
    for disk in (0..sizes.len()).rev() {
        if disk == 0 {
            sync_folder(files, folder)?;
        }
        let path = path_of(alloc, folder, disk as u32)?;
        let file = File::create_new(files, path.as_str())?;
        fill(&file, sizes[disk], &zeros)?;
        file.sync_all()?;
    }
    sync_folder(files, folder)
}

/// Writes so many sectors of zeros.
fn fill<F: FileExt>(file: &F, sectors: u64, zeros: &[u8]) -> io::Result<()>
    requires { length zeros.now ≡ 1048576 }
{
    for piece in 0..sectors.div_ceil(PIECE) {
        let first = piece * PIECE;
        let count = PIECE.min(sectors - first);
        file.write_all_at(&zeros[..(count * SECTOR) as usize], place_of(first)?)?;
    }
    Ok(())
}

/// Opens the disks that were made.
fn open_made<R: Files>(
    alloc: Global,
    files: &R,
    folder: &str,
    count: u32,
) -> io::Result<Vec<DiskFile<R::File>>>
where
    R::File: FileExt,
    ensures { IfOk result (λ disks. length disks.items ≡ count) }
{
    let mut disks = Vec::new(alloc);
    for disk in 0..count {
        let path = path_of(alloc, folder, disk)?;
        let file = OpenOptions::new()
            .read(true)
            .write(true)
            .open(files, path.as_str())?;
        disks.push(DiskFile::new(Some(file)))?;
    }
    Ok(disks)
}
