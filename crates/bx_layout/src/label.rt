//! Labels of disks.

ghost use Rattle.std.specs.Prelude.{◌≡◌, ◌↔◌, length, IsTrue, IfSome, IfNone};
ghost use Rattle.bx_base.specs.Writing.{padded};

use bx_base::{clear_from, put, put_u32, put_u64};
use bx_places::SECTOR;
use byteorder::{BigEndian, ByteOrder};

/// The label of a disk, its first sector: what volume it belongs to.
#[derive(Clone, Copy, PartialEq, Eq)]
pub struct Label {
    /// The volume's number.
    pub volume: u64,
    /// The disk's number in the volume.
    pub disk: u32,
    /// How many devices the volume has, 1 to 4.
    pub devices: u32,
    /// How many areas the volume has, 1 to 64.
    pub areas: u32,
}

/// The first bytes of a label.
const WORD: &[u8; 8] = b"BXDISK01";

/// The version of the formats.
const VERSION: u32 = 1;

impl Label {
    ghost use Rattle.bx_layout.specs.Labels.{IsLabel, SpellsLabel, label_text};

    /// The label that these bytes are. `None` exactly where they are no label of this version.
    pub fn read(sector: &[u8]) -> Option<Label>
        ensures some { IfSome result (λ label. SpellsLabel label sector.now) }
        ensures none { IfNone result ((label : Label) → SpellsLabel label sector.now → ⊥) }
    {
        if sector.len() != SECTOR {
            return None;
        }
        let label = Label {
            volume: BigEndian::read_u64(&sector[12..]),
            disk: BigEndian::read_u32(&sector[20..]),
            devices: BigEndian::read_u32(&sector[24..]),
            areas: BigEndian::read_u32(&sector[28..]),
        };
        if !label.is_allowed() {
            return None;
        }
        let mut text = [0; SECTOR];
        label.write(&mut text);
        if sector == text.as_slice() {
            Some(label)
        } else {
            None
        }
    }

    /// Writes the label into a sector.
    pub fn write(&self, into: &mut [u8])
        requires label { IsLabel self.now }
        requires len { length into.old ≡ 512 }
        ensures { into.new ≡ padded 512 (label_text self.now) }
    {
        let at = put(into, 0, WORD);
        let at = put_u32(into, at, VERSION);
        let at = put_u64(into, at, self.volume);
        let at = put_u32(into, at, self.disk);
        let at = put_u32(into, at, self.devices);
        let at = put_u32(into, at, self.areas);
        clear_from(into, at);
    }

    /// Whether a disk may have this label: its volume has 1 to 4 devices and 1 to 64 areas.
    pub fn is_allowed(self) -> bool
        ensures { IsTrue result ↔ IsLabel self }
    {
        (1..=4).contains(&self.devices) && (1..=64).contains(&self.areas)
    }
}
