//! Handles of chunks.

ghost use Rattle.std.specs.Prelude.{◌≡◌};

/// The name of a chunk, which is never given again: the slot that it is in, and how often that slot was given.
#[derive(Clone, Copy, PartialEq, Eq)]
pub struct ChunkHandle {
    /// The area, from 0 on.
    pub area: u16,
    /// The slot of the area, below 960; 960 for the area's own block.
    pub slot: u16,
    /// The generation of the slot, from 1 on; 0 for the area's own block.
    pub generation: u32,
}

/// The slot of an area's own block, behind all others.
pub const OWN_SLOT: u16 = 960;

/// How far the numbers of the first blocks of two neighbouring areas are apart.
pub const AREA_NUMBERS: u64 = 1024;

/// What one area more adds to a handle's number.
const AREA: u64 = 1 << 48;

/// What one slot more adds to a handle's number.
const SLOT: u64 = 1 << 32;

/// The number of the file whose inode is in block 0.
const FIRST_FILE: u32 = 2;

impl ChunkHandle {
    ghost use Rattle.bx_places.specs.Handles.{number_of, parts_of, own_handle, block_of, fileid};

    /// The handle with this number.
    pub fn of(number: u64) -> ChunkHandle
        ensures { result ≡ parts_of number }
    {
        ChunkHandle {
            area: (number / AREA) as u16,
            slot: (number / SLOT % (1 << 16)) as u16,
            generation: (number % SLOT) as u32,
        }
    }

    /// The handle of the own block of an area.
    pub fn own(area: u16) -> ChunkHandle
        ensures { result ≡ own_handle area }
    {
        ChunkHandle {
            area,
            slot: OWN_SLOT,
            generation: 0,
        }
    }

    /// The number of the handle: 16 bits of area, 16 of slot and 32 of generation, from the highest.
    pub fn number(&self) -> u64
        ensures { result ≡ number_of self.now }
    {
        u64::from(self.area) * AREA + u64::from(self.slot) * SLOT + u64::from(self.generation)
    }

    /// The number of the block that the chunk is in.
    pub fn block(&self) -> u64
        ensures { result ≡ block_of self.now }
    {
        AREA_NUMBERS * u64::from(self.area) + u64::from(self.slot)
    }

    /// The number of the file whose inode the chunk is (the attribute `fileid` of RFC 1094, section 2.3.5).
    pub fn fileid(&self) -> u32
        ensures { result ≡ fileid self.now }
    {
        AREA_NUMBERS as u32 * u32::from(self.area) + u32::from(self.slot) + FIRST_FILE
    }
}
