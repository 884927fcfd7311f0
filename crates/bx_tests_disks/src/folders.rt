//! A rack in a folder: what its calls make of the files, which is all that is seen of it when the folder is opened again.

use crate::steps::{fills, has, syncs};
use bx_base::OutOfMemory;
use bx_disk::{Rack, RackError};
use bx_folder_rack::FolderRack;
use std::rt::Files;
use std::test::Fail;
use std::{fs, process};

/// A new name for a folder of a test.
fn folder_name(rt: &HostRuntime, what: &str) -> Result<String, OutOfMemory> {
    Ok(format!(in rt.alloc(); "/tmp/boxwood-{what}-{}", process::id(rt.process()))?)
}

/// Whether a rack has disks of these sizes.
fn has_sizes<R: Rack>(rack: &R, sizes: &[u64]) -> bool {
    if rack.disks() as usize != sizes.len() {
        return false;
    }
    for disk in 0..rack.disks() {
        if rack.sectors(disk) != sizes[disk as usize] {
            return false;
        }
    }
    true
}

/// Fills a sector with a byte and makes it sure, and says whether that went well.
fn puts<R: Rack>(rack: &mut R, disk: u32, sector: u64, byte: u8) -> bool {
    fills(rack, disk, sector, byte) && syncs(rack, disk)
}

#[test]
fn a_folder_keeps_its_disks(rt: HostRuntime) -> Result<(), Fail> {
    let name = folder_name(&rt, "keeps")?;
    let mut rack = FolderRack::open(rt.alloc(), &rt, name.as_str())?;
    assert_eq!(rt; rack.disks(), 0, "a folder that is missing");
    rack.shape(&[3, 9, 2100])?;
    assert!(rt; has_sizes(&rack, &[3, 9, 2100]));
    assert!(rt; puts(&mut rack, 1, 8, 7) && puts(&mut rack, 2, 2099, 9));
    assert!(rt; has(&mut rack, 1, 8, 7) && has(&mut rack, 1, 7, 0));

    let mut again = FolderRack::open(rt.alloc(), &rt, name.as_str())?;
    assert!(rt; has_sizes(&again, &[3, 9, 2100]));
    assert!(rt;
        has(&mut again, 0, 2, 0) && has(&mut again, 1, 8, 7) && has(&mut again, 2, 2099, 9)
    );

    again.shape(&[2, 4])?;
    assert!(rt; has_sizes(&again, &[2, 4]) && has(&mut again, 1, 3, 0));
    let fewer = FolderRack::open(rt.alloc(), &rt, name.as_str())?;
    assert!(rt; has_sizes(&fewer, &[2, 4]));
    rt.remove_dir_all(rt.alloc(), name.as_str())?;
    Ok(())
}

#[test]
fn a_file_that_is_short_is_a_disk_whose_reads_fail(rt: HostRuntime) -> Result<(), Fail> {
    let name = folder_name(&rt, "short")?;
    let mut rack = FolderRack::open(rt.alloc(), &rt, name.as_str())?;
    rack.shape(&[4])?;
    let path = format!(in rt.alloc(); "{name}/disk0")?;
    fs::write(&rt, path.as_str(), &[1; 700][..])?;
    assert!(rt; !has(&mut rack, 0, 3, 0), "the file was cut");
    let mut again = FolderRack::open(rt.alloc(), &rt, name.as_str())?;
    assert!(rt; has_sizes(&again, &[1]) && has(&mut again, 0, 0, 1));
    rt.remove_dir_all(rt.alloc(), name.as_str())?;
    Ok(())
}

#[test]
fn a_disk_that_cannot_be_opened_fails(rt: HostRuntime) -> Result<(), Fail> {
    let name = folder_name(&rt, "folder")?;
    fs::create_dir(&rt, name.as_str())?;
    let path = format!(in rt.alloc(); "{name}/disk0")?;
    fs::create_dir(&rt, path.as_str())?;
    let mut rack = FolderRack::open(rt.alloc(), &rt, name.as_str())?;
    assert_eq!(rt; rack.disks(), 1, "a folder in the place of a file");
    assert!(rt; !has(&mut rack, 0, 0, 0));
    assert_eq!(rt;
        rack.shape(&[1]),
        Err(RackError::Fault),
        "nor can it be removed as a file"
    );
    rt.remove_dir_all(rt.alloc(), name.as_str())?;
    Ok(())
}

#[test]
fn a_file_in_the_place_of_the_folder_is_a_disk_that_fails(rt: HostRuntime) -> Result<(), Fail> {
    let name = folder_name(&rt, "file")?;
    fs::write(&rt, name.as_str(), &[1; 700][..])?;
    let mut rack = FolderRack::open(rt.alloc(), &rt, name.as_str())?;
    assert_eq!(rt;
        rack.disks(),
        1,
        "of no disk can be said that it is missing"
    );
    assert!(rt; !has(&mut rack, 0, 0, 1));
    assert_eq!(rt; rack.shape(&[1]), Err(RackError::Fault));
    fs::remove_file(&rt, name.as_str())?;
    Ok(())
}
