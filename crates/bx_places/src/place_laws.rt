//! Laws of places.

ghost use Rattle.std.specs.Prelude.{◌≡◌, ◌≢◌, ℕ, ◌+◌, ◌*◌, ◌<◌, ◌≤◌};
ghost use Rattle.bx_places.specs.declared.chunk_handle.ChunkHandle.{ChunkHandle};
ghost use Rattle.bx_places.specs.Handles.{block_of};
ghost use Rattle.bx_places.specs.Places.{AreApart, LieIn, StandsInArea, IsVolume, IsBlock, block_area, block_slot, area_device, area_start, block_place, log_device, log_start, gate_place, body_place, member_sectors, disk_sectors};

/// Each block of a volume stands in its area's sectors, on the area's device; and the area on the disks of its members.
pub fn blocks_stand_in_areas()
    ensures { (block devices areas : ℕ) → IsVolume devices areas → IsBlock areas block → StandsInArea block devices areas }
{}

/// Two blocks of a volume have no sector in common; so a place is one block's.
pub fn blocks_are_apart()
    ensures apart { (one other devices areas : ℕ) → IsVolume devices areas → IsBlock areas one → IsBlock areas other → one ≢ other
        → (block_place one devices).0 ≡ (block_place other devices).0
        → AreApart (block_place one devices).1 9 (block_place other devices).1 9 }
    ensures one_place { (one other devices areas : ℕ) → IsVolume devices areas → IsBlock areas one → IsBlock areas other
        → block_place one devices ≡ block_place other devices → one ≡ other }
{}

/// Two areas on one device have no sector in common.
pub fn areas_are_apart()
    ensures { (one other devices areas : ℕ) → IsVolume devices areas → one ≢ other → area_device one devices ≡ area_device other devices
        → AreApart (area_start one devices) 8649 (area_start other devices) 8649 }
{}

/// Each slot of an area, and the area's own block, is one block of the volume, and each block is one of these; so the block of a
/// handle is one.
pub fn blocks_are_slots()
    ensures there { (area slot areas : ℕ) → area < areas → slot ≤ 960 → IsBlock areas (1024 * area + slot) }
    ensures area { (area slot : ℕ) → slot ≤ 960 → block_area (1024 * area + slot) ≡ area }
    ensures slot { (area slot : ℕ) → slot ≤ 960 → block_slot (1024 * area + slot) ≡ slot }
    ensures back { (block : ℕ) → 1024 * block_area block + block_slot block ≡ block }
    ensures handle { (handle : ChunkHandle) (areas : ℕ) → handle.area < areas → handle.slot ≤ 960 → IsBlock areas (block_of handle) }
{}

/// The label, the log slots and the areas of a device have no sector in common; log slots begin behind the label and end
/// before the first area.
pub fn label_logs_and_areas_are_apart()
    ensures label_and_log { (slot : ℕ) → AreApart 0 1 (log_start slot) 1168 }
    ensures two_logs { (slot other : ℕ) → slot ≢ other → AreApart (log_start slot) 1168 (log_start other) 1168 }
    ensures log_and_area { (slot area devices : ℕ) → slot < 8 → AreApart (log_start slot) 1168 (area_start area devices) 8649 }
    ensures label_and_area { (area devices : ℕ) → AreApart 0 1 (area_start area devices) 8649 }
{}

/// The gates and the bodies of a log slot stand in its sectors, on a device of the volume and its members' disks.
pub fn records_stand_in_logs()
    ensures gate_device { (slot gate devices : ℕ) → 0 < devices → (gate_place slot gate devices).0 < devices }
    ensures body_device { (slot body devices : ℕ) → (body_place slot body devices).0 ≡ (gate_place slot body devices).0 }
    ensures gates { (slot gate devices : ℕ) → gate < 8 → LieIn (gate_place slot gate devices).1 1 (log_start slot) 1168 }
    ensures bodies { (slot body devices : ℕ) → body < 8 → LieIn (body_place slot body devices).1 145 (log_start slot) 1168 }
    ensures disk { (slot devices areas : ℕ) → slot < 8 → LieIn (log_start slot) 1168 0 (member_sectors devices areas) }
{}

/// The gates and the bodies of a log slot have no sector in common, and a body has room for a header and 16 blocks.
pub fn records_are_apart()
    ensures two_gates { (slot gate other devices : ℕ) → gate ≢ other
        → AreApart (gate_place slot gate devices).1 1 (gate_place slot other devices).1 1 }
    ensures two_bodies { (slot body other devices : ℕ) → body ≢ other
        → AreApart (body_place slot body devices).1 145 (body_place slot other devices).1 145 }
    ensures gate_and_body { (slot gate body devices : ℕ) → gate < 8
        → AreApart (gate_place slot gate devices).1 1 (body_place slot body devices).1 145 }
    ensures room { (blocks : ℕ) → blocks ≤ 16 → 1 + 9 * blocks ≤ 145 }
{}

/// A disk of a member has as many sectors as its device, and one of a replica has 21.
pub fn disks_have_room()
    ensures replica { (disk devices areas : ℕ) → disk < 3 → disk_sectors devices areas disk ≡ 21 }
    ensures member { (member devices areas : ℕ) → disk_sectors devices areas (3 + member) ≡ member_sectors devices areas }
{}
