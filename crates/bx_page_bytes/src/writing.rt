//! Pages written anew out of their bytes, with an entry more or less.

ghost use Rattle.std.specs.Prelude.{◌≡◌, ◌+◌, ◌≤◌, ◌↔◌, ◌<◌, IsTrue, IsSome, IfSome, None, length, sum_by};
ghost use Rattle.std.specs.List.{flat_map};
ghost use Rattle.std.specs.Option.{option_copied};
ghost use Rattle.bx_base.specs.Writing.{Writes};
ghost use Rattle.bx_page.specs.Keys.{IsBelow};
ghost use Rattle.bx_page.specs.Contents.{IsEntry, Rises, entry_size, high_bytes, size, value_of, below, above, with_value, without_key};
ghost use Rattle.bx_page.specs.Spelling.{Spells, entry_bytes};
ghost use Rattle.bx_page_bytes.specs.Pages.{head_bytes};

use crate::entries::Entries;
use crate::page::{PageBytes, SIZE};
use bx_base::{clear_from, put, put_u16, put_u64};
use std::cmp::Ordering;

/// What an entry takes beside its key and its value: their lengths.
const LENGTHS: usize = 4;

/// How many bytes stand before the high key of a page.
const NUMBERS: usize = 16;

/// The length of a high key where there is none.
const NO_HIGH: u16 = 65535;

impl<'a> PageBytes<'a> {
    /// Writes the page with one entry more into 4096 bytes. The page hasn't got its key, which is below the high key, where there
    /// is one; above the leaves the value is the handle of a child, of eight bytes. `false` exactly where it would take more than these, and nothing is
    /// written then.
    pub fn write_with(&self, key: &[u8], value: &[u8], into: &mut [u8]) -> bool
        requires size { length into.old ≡ 4096 }
        requires key { length key.now ≤ 256 }
        requires both { length key.now + length value.now ≤ 268 }
        requires child { 0 < self.now.level → length value.now ≡ 8 }
        requires below { IfSome self.now.high (IsBelow key.now) }
        requires absent { value_of self.now.entries key.now ≡ None }
        ensures room { IsTrue result ↔ (size (with_value self.now key.now value.now) ≤ 4096) }
        ensures written { IsTrue result → Spells (with_value self.now key.now value.now) into.new }
    {
        if self.room < LENGTHS + key.len() + value.len() {
            return false;
        }
        let (front, back) = self.around(key);
        let at = put_head(into, self.level, self.count + 1, self.right, self.high);
        let at = put(into, at, front);
        let at = put_entry(into, at, key, value);
        let at = put(into, at, back);
        clear_from(into, at);
        true
    }

    /// Writes the page without the entry of a key, which it has, into 4096 bytes.
    pub fn write_without(&self, key: &[u8], into: &mut [u8])
        requires size { length into.old ≡ 4096 }
        requires there { IsSome (value_of self.now.entries key.now) }
        ensures { Spells (without_key self.now key.now) into.new }
    {
        let (front, back) = self.around(key);
        let at = put_head(into, self.level, self.count - 1, self.right, self.high);
        let at = put(into, at, front);
        let at = put(into, at, back);
        clear_from(into, at);
    }

    /// The bytes of the entries with keys below a key, and of those with keys above it.
    fn around(&self, key: &[u8]) -> (&'a [u8], &'a [u8])
        ensures below { result.0.now ≡ flat_map entry_bytes (below self.now.entries key.now) }
        ensures above { result.1.now ≡ flat_map entry_bytes (above self.now.entries key.now) }
    {
        let (before, behind) = cuts(self.entries(), key);
        let (used, _) = self.payload.split_at(SIZE - self.room);
        let (_, entries) = used.split_at(head_len(self.high));
        let (front, _) = entries.split_at(before);
        let (_, back) = entries.split_at(behind);
        (front, back)
    }
}

/// How many bytes stand before the entries of a page.
fn head_len(high: Option<&[u8]>) -> usize
    requires { length (high_bytes (option_copied high)) ≤ 256 }
    ensures { result ≡ 16 + length (high_bytes (option_copied high.entry)) }
{
    match high {
        None => NUMBERS,
        Some(high) => NUMBERS + high.len(),
    }
}

/// How many bytes the entries take whose keys are below a key, and how many those take whose keys aren't above it.
fn cuts(entries: Entries, key: &[u8]) -> (usize, usize)
    requires rises { Rises entries }
    requires few { sum_by entry_size entries ≤ 4096 }
    ensures before { result.0 ≡ sum_by entry_size (below entries.entry key.now) }
    ensures behind { result.1 + sum_by entry_size (above entries.entry key.now) ≡ sum_by entry_size entries.entry }
{
    let mut entries = entries;
    let mut before = 0;
    while let Some(entry) = entries.next() {
        let size = LENGTHS + (entry.key().len() + entry.value().len());
        match entry.key().cmp(key) {
            Ordering::Less => before += size,
            Ordering::Equal => return (before, before + size),
            Ordering::Greater => return (before, before),
        }
    }
    (before, before)
}

/// Writes what stands before the entries of a page.
fn put_head(into: &mut [u8], level: u16, count: u16, right: u64, high: Option<&[u8]>) -> usize
    requires fits { 16 + length (high_bytes (option_copied high)) ≤ length into.old }
    requires short { length (high_bytes (option_copied high)) ≤ 256 }
    ensures { Writes into.old into.new 0 result (head_bytes level count right (option_copied high.entry)) }
{
    let at = put_u16(into, 0, level);
    let at = put_u16(into, at, count);
    let at = put_u64(into, at, right);
    match high {
        None => {
            let at = put_u16(into, at, NO_HIGH);
            put_u16(into, at, 0)
        }
        Some(high) => {
            let at = put_u16(into, at, high.len() as u16);
            let at = put_u16(into, at, 0);
            put(into, at, high)
        }
    }
}

/// Writes an entry.
fn put_entry(into: &mut [u8], at: usize, key: &[u8], value: &[u8]) -> usize
    requires fits { at + 4 + length key.now + length value.now ≤ length into.old }
    requires short { length key.now + length value.now ≤ 268 }
    ensures { Writes into.old into.new at result (entry_bytes (record { key = key.now; value = value.now })) }
{
    let at = put_u16(into, at, key.len() as u16);
    let at = put_u16(into, at, value.len() as u16);
    let at = put(into, at, key);
    put(into, at, value)
}
