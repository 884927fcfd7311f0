//! A page in its bytes.

ghost use Rattle.std.specs.Prelude.{◌≡◌, ◌+◌, ◌≤◌, sum_by, IfOk, IfSome, IfNone};
ghost use Rattle.std.specs.Option.{option_copied};
ghost use Rattle.bx_page.specs.Contents.{Contents, Rises, entry_size, size, value_of, up_to, from, first, last};
ghost use Rattle.bx_page.specs.Spelling.{Spells};

use crate::entries::{Entries, EntryBytes};
use crate::reading::{are_zeros, behind_entries, high_part, numbers_of};
use bx_base::OutOfMemory;
use bx_page::Page;
use std::alloc::Global;
use std::marker::Model;

/// How many bytes a page takes.
pub(crate) const SIZE: usize = 4096;

/// A page that stands in bytes. Contracts see it as they see a page.
#[derive(Drop)]
pub struct PageBytes<'a> {
    pub(crate) payload: &'a [u8],
    pub(crate) level: u16,
    pub(crate) right: u64,
    pub(crate) high: Option<&'a [u8]>,
    pub(crate) count: u16,
    entries: &'a [u8],
    pub(crate) room: usize,
}

impl<'a> Model for PageBytes<'a> {
    ghost use Rattle.bx_page.specs.Contents.{Contents};

    ghost Value = { Contents };

    ghost use Rattle.bx_page_bytes.specs.Pages.{contents_of, HoldsPage};

    ghost view = { contents_of };

    ghost invariant = { HoldsPage };
}

impl<'a> PageBytes<'a> {
    /// The page that these bytes are. `None` exactly where they are no page.
    pub fn read(payload: &'a [u8]) -> Option<PageBytes<'a>>
        ensures some { IfSome result (λ page. Spells page payload.now) }
        ensures none { IfNone result ((page : Contents) → Spells page payload.now → ⊥) }
    {
        if payload.len() != SIZE {
            return None;
        }
        let Ok(((level, count, right), rest)) = numbers_of(payload) else {
            return None;
        };
        let Ok((high, entries)) = high_part(rest) else {
            return None;
        };
        let rest = behind_entries(level, high, count, entries)?;
        if !are_zeros(rest) {
            return None;
        }
        Some(PageBytes {
            payload,
            level,
            right,
            high,
            count,
            entries,
            room: rest.len(),
        })
    }

    /// The level.
    pub fn level(&self) -> u16
        ensures { result ≡ self.now.level }
    {
        self.level
    }

    /// The link to the page on the right; 0 where there is none.
    pub fn right(&self) -> u64
        ensures { result ≡ self.now.right }
    {
        self.right
    }

    /// The high key, which every key is below; `None` where there is none.
    pub fn high(&self) -> Option<&'a [u8]>
        ensures { option_copied result ≡ self.now.high }
    {
        self.high
    }

    /// How many more bytes fit into the page.
    pub fn room(&self) -> usize
        ensures { result + size self.now ≡ 4096 }
    {
        self.room
    }

    /// The entries.
    pub(crate) fn entries(&self) -> Entries<'a>
        ensures all { result ≡ self.now.entries }
        ensures rises { Rises result }
        ensures few { sum_by entry_size result ≤ 4096 }
    {
        Entries {
            left: self.count,
            bytes: self.entries,
        }
    }

    /// The value of a key; `None` exactly where the key isn't there.
    pub fn get(&self, key: &[u8]) -> Option<&'a [u8]>
        ensures { option_copied result ≡ value_of self.now.entries key.now }
    {
        let mut entries = self.entries();
        while let Some(entry) = entries.next() {
            if entry.key() == key {
                return Some(entry.value());
            }
        }
        None
    }

    /// The entry with the greatest key that isn't above a key; `None` exactly where all keys are above it.
    pub fn last_up_to(&self, key: &[u8]) -> Option<EntryBytes<'a>>
        ensures { result ≡ last (up_to self.now.entries key.now) }
    {
        let mut found = None;
        let mut entries = self.entries();
        while let Some(entry) = entries.next() {
            if key.cmp(entry.key()).is_lt() {
                return found;
            }
            found = Some(entry);
        }
        found
    }

    /// The entry with the least key that isn't below a key; `None` exactly where all keys are below it.
    pub fn first_from(&self, key: &[u8]) -> Option<EntryBytes<'a>>
        ensures { result ≡ first (from self.now.entries key.now) }
    {
        let mut entries = self.entries();
        while let Some(entry) = entries.next() {
            if !entry.key().cmp(key).is_lt() {
                return Some(entry);
            }
        }
        None
    }

    /// The entries whose keys aren't below a key.
    pub fn from(&self, key: &[u8]) -> Entries<'a>
        ensures { result ≡ from self.now.entries key.now }
    {
        let mut entries = self.entries();
        let mut rest = entries.copied();
        while let Some(entry) = entries.next() {
            if entry.key().cmp(key).is_lt() {
                rest = entries.copied();
            } else {
                return rest;
            }
        }
        rest
    }

    /// The page with all its entries, in lists that own their memory.
    pub fn copied(&self, alloc: Global) -> Result<Page, OutOfMemory>
        ensures { IfOk result (λ page. page ≡ self.now) }
    {
        match Page::read(alloc, self.payload)? {
            Some(page) => Ok(page),
            None => unreachable!(),
        }
    }
}
