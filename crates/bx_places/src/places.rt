//! Places: on which device a block, a gate or a record's body stands, and at which sector. Both members of a device have the
//! same at the same sectors.

ghost use Rattle.std.specs.Prelude.{◌≡◌, ◌↔◌, ◌<◌, IsTrue};
ghost use Rattle.bx_places.specs.Places.{IsVolume, IsBlock, is_block, block_place, log_start, gate_place, body_place, member_sectors, disk_sectors, disk_count};

use crate::AREA_NUMBERS;
use crate::sizes::{BLOCK_SECTORS, REPLICA_SECTORS, SLOTS};

/// The sector of a device where its first area begins.
const AREAS_AT: u64 = 9345;

/// How many sectors an area has: its own block and its slots.
const AREA_SECTORS: u64 = 8649;

/// How many sectors a log slot has: its gates and its bodies.
const LOG_SECTORS: u64 = 1168;

/// How many gates a log slot has.
const GATES: u64 = 8;

/// How many sectors a record's body has.
const BODY_SECTORS: u64 = 145;

/// How many disks are replicas'.
const REPLICAS: u32 = 3;

/// Whether a volume of so many areas has a block of this number.
pub fn is_block(block: u64, areas: u16) -> bool
    ensures value { result ≡ is_block areas block }
    ensures block { IsTrue result ↔ IsBlock areas block }
{
    block / AREA_NUMBERS < u64::from(areas) && block % AREA_NUMBERS <= u64::from(SLOTS)
}

/// The device of a block of a volume, and the first of its nine sectors there.
pub fn place(block: u64, devices: u32, areas: u16) -> (u32, u64)
    requires volume { IsVolume devices areas }
    requires block { IsBlock areas block }
    ensures { result ≡ block_place block devices }
{
    let (area, slot) = (block / AREA_NUMBERS, block % AREA_NUMBERS);
    let start = AREAS_AT + AREA_SECTORS * (area / u64::from(devices));
    let into = if slot == u64::from(SLOTS) {
        0
    } else {
        BLOCK_SECTORS * (slot + 1)
    };
    ((area % u64::from(devices)) as u32, start + into)
}

/// The device of a gate of a log slot, and its sector there.
pub fn gate_place(slot: u32, gate: u32, devices: u32) -> (u32, u64)
    requires slot { slot < 8 }
    requires gate { gate < 8 }
    requires devices { 0 < devices }
    ensures { result ≡ gate_place slot gate devices }
{
    (slot % devices, log_start(slot) + u64::from(gate))
}

/// The device of a body of a log slot, and the first of its 145 sectors there.
pub fn body_place(slot: u32, body: u32, devices: u32) -> (u32, u64)
    requires slot { slot < 8 }
    requires body { body < 8 }
    requires devices { 0 < devices }
    ensures { result ≡ body_place slot body devices }
{
    let at = log_start(slot) + GATES + BODY_SECTORS * u64::from(body);
    (slot % devices, at)
}

/// The sector where a log slot begins on its device: behind the label.
fn log_start(slot: u32) -> u64
    requires { slot < 8 }
    ensures { result ≡ log_start slot }
{
    1 + LOG_SECTORS * u64::from(slot)
}

/// How many sectors a member's disk has on a volume: room for the label, the log slots and the areas of one device.
pub fn member_sectors(devices: u32, areas: u16) -> u64
    requires { IsVolume devices areas }
    ensures { result ≡ member_sectors devices areas }
{
    AREAS_AT + AREA_SECTORS * u64::from(areas).div_ceil(u64::from(devices))
}

/// How many sectors a disk of a volume has, by its number: first the three replicas, then two members of each device.
pub fn disk_sectors(devices: u32, areas: u16, disk: u32) -> u64
    requires volume { IsVolume devices areas }
    requires disk { disk < disk_count devices }
    ensures { result ≡ disk_sectors devices areas disk }
{
    if disk < REPLICAS {
        REPLICA_SECTORS
    } else {
        member_sectors(devices, areas)
    }
}
