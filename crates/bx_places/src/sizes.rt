//! How big things are.

use crate::OWN_SLOT;

/// How many bytes a sector has.
pub const SECTOR: usize = 512;

/// How many bytes the payload of a block has.
pub const PAYLOAD: usize = 4096;

/// How many sectors a block has: its header and its payload.
pub const BLOCK_SECTORS: u64 = 9;

/// How many slots an area has. Behind their numbers comes that of the area's own block.
pub const SLOTS: u16 = OWN_SLOT;

/// The most areas of a volume.
pub const MOST_AREAS: u16 = 64;

/// The most blocks that a call changes, and that a record has.
pub const MOST_BLOCKS: usize = 16;

/// How many sectors a replica's disk has.
pub const REPLICA_SECTORS: u64 = 21;
