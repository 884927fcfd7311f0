//! Writing a page as bytes.

ghost use Rattle.std.specs.Prelude.{◌≡◌, ◌+◌, ◌≤◌, ◌^◌, ◌<◌, [], ◌∷◌, ◌++◌, length, All, sum_by};
ghost use Rattle.std.specs.List.{flat_map};
ghost use Rattle.std.specs.Int.{w16, to_be_bytes};
ghost use Rattle.bx_page.specs.Contents.{IsEntry, entry_size, high_bytes};
ghost use Rattle.bx_base.specs.Writing.{Writes};
ghost use Rattle.bx_page.specs.Spelling.{high_len, entry_bytes, page_bytes};

use crate::entry::{Entry, LENGTHS};
use crate::page::Page;
use bx_base::{Raw, clear_from, put, put_u16, put_u64};

/// The length of a high key where there is none.
pub(crate) const NO_HIGH: u16 = 65535;

impl Page {
    /// Writes the page into 4096 bytes.
    pub fn write(&self, payload: &mut [u8])
        requires { length payload.old ≡ 4096 }
        ensures { payload.new ≡ page_bytes self.now }
    {
        let at = put_u16(payload, 0, self.level);
        let at = put_u16(payload, at, self.entries.len() as u16);
        let at = put_u64(payload, at, self.right);
        let at = put_high(payload, at, &self.high);
        let at = put_entries(payload, at, &self.entries);
        clear_from(payload, at);
    }
}

/// Writes the length of a high key, two zeros and the high key.
fn put_high(payload: &mut [u8], at: usize, high: &Option<Raw>) -> usize
    requires fits { at + 4 + length (high_bytes high.now) ≤ length payload.old }
    requires short { length (high_bytes high.now) ≤ 256 }
    ensures { Writes payload.old payload.new at result (to_be_bytes w16 (high_len high.now) ++ (0 ∷ 0 ∷ high_bytes high.now)) }
{
    match high {
        None => {
            let at = put_u16(payload, at, NO_HIGH);
            put_u16(payload, at, 0)
        }
        Some(high) => {
            let at = put_u16(payload, at, high.bytes().len() as u16);
            let at = put_u16(payload, at, 0);
            put(payload, at, high.bytes())
        }
    }
}

/// Writes an entry.
fn put_entry(payload: &mut [u8], at: usize, entry: &Entry) -> usize
    requires fits { at + entry_size entry.now ≤ length payload.old }
    requires entry { IsEntry entry.now }
    ensures { Writes payload.old payload.new at result (entry_bytes entry.now) }
{
    let at = put_u16(payload, at, entry.key.bytes().len() as u16);
    let at = put_u16(payload, at, entry.value.bytes().len() as u16);
    let at = put(payload, at, entry.key.bytes());
    put(payload, at, entry.value.bytes())
}

/// Writes entries one after the other.
fn put_entries(payload: &mut [u8], at: usize, entries: &[Entry]) -> usize
    requires fits { at + sum_by entry_size entries.now ≤ length payload.old }
    requires entries { All IsEntry entries.now }
    ensures { Writes payload.old payload.new at result (flat_map entry_bytes entries.now) }
{
    let mut end = at;
    for entry in entries {
        end = put_entry(payload, end, entry);
    }
    end
}
