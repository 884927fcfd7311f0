//! Calls of a rack with what they must answer, for tables of cases.

use bx_disk::{CrashRack, Noise, Rack};

/// A call, and its outcome.
#[derive(Clone, Copy)]
pub enum Step {
    /// A sector of a disk is filled with a byte.
    Fills(u32, u64, u8),
    /// A fault: the sector isn't filled.
    FailsToFill(u32, u64, u8),
    /// A disk is synced.
    Syncs(u32),
    /// A fault: the disk isn't synced.
    FailsToSync(u32),
    /// Each of these sectors of a disk is filled with its byte.
    Holds(u32, &'static [(u64, u8)]),
    /// A disk crashes.
    Crashes(u32, Noise),
    /// A disk is made blank.
    Blanks(u32),
}

/// Fills a sector with a byte, if it is there, and says whether that went well.
pub(crate) fn fills<R: Rack>(rack: &mut R, disk: u32, sector: u64, byte: u8) -> bool {
    disk < rack.disks()
        && sector < rack.sectors(disk)
        && rack.write(disk, sector, &[byte; 512]).is_ok()
}

/// Syncs a disk, if it is there, and says whether that went well.
pub(crate) fn syncs<R: Rack>(rack: &mut R, disk: u32) -> bool {
    disk < rack.disks() && rack.sync(disk).is_ok()
}

/// A sector, if it is there and can be read: over bytes that are this one, so that it shows where a read leaves any.
pub(crate) fn content<R: Rack>(rack: &mut R, disk: u32, at: u64, blank: u8) -> Option<[u8; 512]> {
    let mut into = [blank; 512];
    let is_read = disk < rack.disks()
        && at < rack.sectors(disk)
        && rack.read(disk, at, &mut into).is_ok();
    is_read.then_some(into)
}

/// Whether a sector is there and can be read, and all of its bytes are this one.
pub(crate) fn has<R: Rack>(rack: &mut R, disk: u32, sector: u64, byte: u8) -> bool {
    content(rack, disk, sector, !byte) == Some([byte; 512])
}

/// The first sector of a disk that isn't filled with its byte.
pub(crate) fn wrong<R: Rack>(rack: &mut R, disk: u32, held: &[(u64, u8)]) -> Option<u64> {
    for (sector, byte) in held {
        if !has(rack, disk, *sector, *byte) {
            return Some(*sector);
        }
    }
    None
}

/// Crashes a disk, if it is there, and says whether that went well.
pub(crate) fn crashes<R: CrashRack>(rack: &mut R, disk: u32, how: Noise) -> bool {
    disk < rack.disks() && rack.crash(disk, how).is_ok()
}

/// Takes a step, and says whether it came out so.
pub(crate) fn goes<R: CrashRack>(rack: &mut R, step: Step) -> bool {
    match step {
        Step::Fills(disk, sector, byte) => fills(rack, disk, sector, byte),
        Step::FailsToFill(disk, sector, byte) => !fills(rack, disk, sector, byte),
        Step::Syncs(disk) => syncs(rack, disk),
        Step::FailsToSync(disk) => !syncs(rack, disk),
        Step::Holds(disk, held) => wrong(rack, disk, held).is_none(),
        Step::Crashes(disk, how) => crashes(rack, disk, how),
        Step::Blanks(disk) => disk < rack.disks() && rack.blank(disk).is_ok(),
    }
}
