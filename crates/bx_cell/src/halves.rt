//! The halves of a cell as bytes.

ghost use Rattle.std.specs.Prelude.{◌≡◌, ℕ, ◌+◌, ◌*◌, ◌^◌, ◌<◌, ◌≤◌, ◌&&◌, true, false, List, ◌++◌, length, take, drop, nat_le, Some, None, IfSome, IfNone};
ghost use Rattle.bx_disk.specs.Disks.{sector_of};
ghost use Rattle.bx_cell.specs.Halves.{is_open, number_in, length_in, half_at, cell_in};
ghost use Rattle.bx_cell.specs.Bytes.{body_text, found_at};
ghost use Rattle.bx_cell.specs.Formats.{format_text};

use bx_base::{clear_from, put, put_u32, put_u64};
use bx_layout::Gate;
use bx_places::SECTOR;
use byteorder::{BigEndian, ByteOrder};

/// How many sectors a half has: its gate, its header, and eight of value.
pub const HALF_SECTORS: u64 = 10;

/// How many bytes a half has.
const HALF: usize = 5120;

/// How many bytes a cell has.
pub const CELL: usize = 10240;

/// How many bytes the header and the value of a half have.
pub const BODY: usize = 4608;

/// How many bytes are written of a new cell: those of half 0, and the gate of half 1.
pub const FORMAT: usize = 5632;

/// How many bytes a value has at most.
const MOST: u32 = 4096;

/// What the header of a half tells.
#[derive(Clone, Copy)]
pub struct Head {
    /// The number of the half.
    pub number: u64,
    /// How many bytes its value has.
    pub length: u32,
}

/// The half of a cell that has its value.
#[derive(Clone, Copy)]
pub struct Place {
    /// Which half, 0 or 1.
    pub half: usize,
    /// What its header tells.
    pub head: Head,
}

/// Whether a gate is open.
pub fn reads_open(gate: &[u8]) -> bool
    ensures { result ≡ is_open gate.now }
{
    match Gate::read(gate) {
        Gate::Open => true,
        Gate::Closed => false,
    }
}

/// What a half tells by the sectors of its gate and its header; `None` exactly where the gate is closed or the length
/// is above 4096.
#[tactic(auto, unfolding(crate::specs::Halves::number_in, crate::specs::Halves::length_in))]
fn head_of(gate: &[u8], header: &[u8]) -> Option<Head>
    requires { length header.now ≡ 512 }
    ensures some { IfSome result (λ head. ((is_open gate.now && nat_le (length_in header.now) 4096) ≡ true) × (head ≡ record { number = number_in header.now; length = length_in header.now })) }
    ensures none { IfNone result ((is_open gate.now && nat_le (length_in header.now) 4096) ≡ false) }
{
    let number = BigEndian::read_u64(header);
    let length = BigEndian::read_u32(&header[8..]);
    if reads_open(gate) && length <= MOST {
        Some(Head { number, length })
    } else {
        None
    }
}

/// What a half of a cell tells; `None` exactly where it has no value.
fn half_of(bytes: &[u8], half: usize) -> Option<Head>
    requires size { length bytes.now ≡ 10240 }
    requires half { half < 2 }
    ensures some { IfSome result (λ head. half_at (sector_of bytes.now) half (10 * half) ≡ Some (found_at half head.number head.length bytes.now)) }
    ensures none { IfNone result (half_at (sector_of bytes.now) half (10 * half) ≡ None) }
    ensures short { IfSome result (λ head. head.length ≤ 4096) }
{
    let at = HALF * half;
    head_of(
        &bytes[at..at + SECTOR],
        &bytes[at + SECTOR..at + 2 * SECTOR],
    )
}

/// The half that has the value of a cell; `None` exactly where neither half has one.
#[tactic(auto, unfolding(crate::specs::Halves::cell_in, crate::specs::Halves::better))]
pub fn place_of(bytes: &[u8]) -> Option<Place>
    requires { length bytes.now ≡ 10240 }
    ensures some { IfSome result (λ place. cell_in (sector_of bytes.now) 0 ≡ Some (found_at place.half place.head.number place.head.length bytes.now)) }
    ensures none { IfNone result (cell_in (sector_of bytes.now) 0 ≡ None) }
    ensures half { IfSome result (λ place. place.half < 2) }
    ensures short { IfSome result (λ place. place.head.length ≤ 4096) }
{
    match (half_of(bytes, 0), half_of(bytes, 1)) {
        (None, None) => None,
        (Some(head), None) => Some(Place { half: 0, head }),
        (None, Some(head)) => Some(Place { half: 1, head }),
        (Some(head), Some(other)) => {
            if head.number < other.number {
                Some(Place {
                    half: 1,
                    head: other,
                })
            } else {
                Some(Place { half: 0, head })
            }
        }
    }
}

/// The value of a half, of the bytes of its cell.
pub fn value_of(bytes: &[u8], place: Place) -> &[u8]
    requires size { length bytes.now ≡ 10240 }
    requires half { place.half < 2 }
    requires short { place.head.length ≤ 4096 }
    ensures { result.now ≡ (found_at place.half place.head.number place.head.length bytes.now).value }
{
    let at = HALF * place.half + 2 * SECTOR;
    &bytes[at..at + place.head.length as usize]
}

/// Writes the header of a half and the sectors of its value.
pub fn write_body(into: &mut [u8], number: u64, value: &[u8])
    requires size { length into.old ≡ 4608 }
    requires short { length value.now ≤ 4096 }
    ensures { into.new ≡ body_text number value.now }
{
    let (header, rest) = into.split_at_mut(SECTOR);
    let at = put_u64(header, 0, number);
    let at = put_u32(header, at, value.len() as u32);
    clear_from(header, at);
    let at = put(rest, 0, value);
    clear_from(rest, at);
}

/// Writes the bytes of a new cell: half 0 has the value under number 1, and half 1 is closed.
pub fn write_format(into: &mut [u8], value: &[u8])
    requires size { length into.old ≡ 5632 }
    requires short { length value.now ≤ 4096 }
    ensures { into.new ≡ format_text value.now }
{
    let (gate, rest) = into.split_at_mut(SECTOR);
    Gate::Open.write(gate);
    let (body, other) = rest.split_at_mut(BODY);
    write_body(body, 1, value);
    Gate::Closed.write(other);
}
