//! Names and places: the names of chunks, the 32 bytes by which files are named to clients, and where things stand on the
//! disks of a volume: its blocks, and the gates and bodies of its logs; and how big they are.
#![tactic(auto)]

mod chunk_handle;
mod file_handles;
mod handle_laws;
mod place_laws;
mod places;
mod sizes;

pub use chunk_handle::{AREA_NUMBERS, ChunkHandle, OWN_SLOT};
pub use file_handles::{file_handle, named_handle};
pub use handle_laws::{file_handles_name_one, handle_one_number};
pub use place_laws::{
    areas_are_apart, blocks_are_apart, blocks_are_slots, blocks_stand_in_areas, disks_have_room,
    label_logs_and_areas_are_apart, records_are_apart, records_stand_in_logs,
};
pub use places::{body_place, disk_sectors, gate_place, is_block, member_sectors, place};
pub use sizes::{BLOCK_SECTORS, MOST_AREAS, MOST_BLOCKS, PAYLOAD, REPLICA_SECTORS, SECTOR, SLOTS};
