//! Blocks.

ghost use Rattle.std.specs.Prelude.{◌≡◌, ◌↔◌, ℕ, ◌<◌, length, IsTrue, IfOk, IfSome, IfNone};
ghost use Rattle.bx_places.specs.Handles.{parts_of};
ghost use Rattle.bx_layout.specs.Blocks.{IsOwn, SpellsHeader, header_text};

use bx_base::{OutOfMemory, Raw, clear_from, put_u32, put_u64};
use bx_places::{ChunkHandle, MOST_AREAS, OWN_SLOT, PAYLOAD, SECTOR};
use byteorder::{BigEndian, ByteOrder};
use std::alloc::Global;

/// A block: nine sectors, of which the first is its header.
#[derive(Drop)]
pub struct Block {
    /// The number of the chunk handle that names it; 0 where it is free. That of the own block of an area has its slot, 960,
    /// and generation 0.
    pub handle: u64,
    /// 0 free, 1 an inode, 2 a page, 3 data, 4 the own block of an area.
    pub kind: u32,
    /// 4096 bytes.
    pub payload: Raw,
}

/// How many kinds of blocks there are.
const KINDS: u32 = 5;

/// The kind of the own block of an area.
const AREA: u32 = 4;

impl Block {
    ghost use Rattle.bx_layout.specs.Blocks.{HasParts, SpellsBlock, block_text};

    /// The block that these bytes are. `None` exactly where they are no block.
    pub fn read(alloc: Global, bytes: &[u8]) -> Result<Option<Block>, OutOfMemory>
        ensures some { IfOk result (λ found. IfSome found (λ block. SpellsBlock block bytes.now)) }
        ensures none { IfOk result (λ found. IfNone found ((block : Block) → SpellsBlock block bytes.now → ⊥)) }
    {
        if bytes.len() != SECTOR + PAYLOAD {
            return Ok(None);
        }
        let (header, payload) = bytes.split_at(SECTOR);
        let Some((handle, kind)) = header_of(header) else {
            return Ok(None);
        };
        let payload = Raw::of(alloc, payload)?;
        Ok(Some(Block {
            handle,
            kind,
            payload,
        }))
    }

    /// Writes the block into its 4608 bytes.
    pub fn write(&self, into: &mut [u8])
        requires parts { HasParts self.now }
        requires len { length into.old ≡ 4608 }
        ensures { into.new ≡ block_text self.now }
    {
        let (header, payload) = into.split_at_mut(SECTOR);
        put_header(header, self.handle, self.kind);
        payload.copy_from_slice(self.payload.bytes());
    }
}

/// The handle and the kind that a sector has as the header of a block; `None` exactly where it is no block's.
fn header_of(sector: &[u8]) -> Option<(u64, u32)>
    requires { length sector.now ≡ 512 }
    ensures some { IfSome result (λ x. SpellsHeader x.0 x.1 sector.now) }
    ensures none { IfNone result ((handle kind : ℕ) → SpellsHeader handle kind sector.now → ⊥) }
{
    let handle = BigEndian::read_u64(sector);
    let kind = BigEndian::read_u32(&sector[8..]);
    if is_header(sector, handle, kind) {
        Some((handle, kind))
    } else {
        None
    }
}

/// Whether a sector is the header of a block with this handle and of this kind.
fn is_header(sector: &[u8], handle: u64, kind: u32) -> bool
    ensures { IsTrue result ↔ SpellsHeader handle kind sector.now }
{
    may_name(kind, handle) && is_text(sector, handle, kind)
}

/// Whether the handle with a number may name a block of a kind.
fn may_name(kind: u32, handle: u64) -> bool
    ensures { IsTrue result ↔ ((kind < 5) × (kind ≡ 4 → IsOwn (parts_of handle))) }
{
    kind < KINDS && (kind != AREA || is_own(handle))
}

/// Whether the handle with a number is that of the own block of an area of some volume.
fn is_own(number: u64) -> bool
    ensures { IsTrue result ↔ IsOwn (parts_of number) }
{
    let handle = ChunkHandle::of(number);
    handle.area < MOST_AREAS && handle.slot == OWN_SLOT && handle.generation == 0
}

/// Whether a sector has this handle and this kind, and zeros behind them.
fn is_text(sector: &[u8], handle: u64, kind: u32) -> bool
    ensures { IsTrue result ↔ (sector.now ≡ header_text handle kind) }
{
    let mut text = [0; SECTOR];
    put_header(&mut text, handle, kind);
    sector == text.as_slice()
}

/// Writes the header of a block into a sector.
fn put_header(into: &mut [u8], handle: u64, kind: u32)
    requires { length into.old ≡ 512 }
    ensures { into.new ≡ header_text handle kind }
{
    let at = put_u64(into, 0, handle);
    let at = put_u32(into, at, kind);
    clear_from(into, at);
}
