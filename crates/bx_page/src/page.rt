//! A page.

ghost use Rattle.std.specs.Prelude.{◌≡◌, ◌+◌, ◌-◌, ◌<◌, ◌≤◌, ◌↔◌, [], length, IsTrue, IsSome, IsErrOf, IfSome, IfOk, OnOk, OnErr, None, slice_get};
ghost use Rattle.std.specs.Option.{option_copied};
ghost use Rattle.bx_page.specs.Keys.{IsBelow};
ghost use Rattle.bx_page.specs.Contents.{size, value_of, up_to, from, first, last, with_value, without_key, first_half, other_half};
ghost use Rattle.bx_page.specs.Places.{IsPlace};
ghost use Rattle.bx_page.specs.declared.error.PageError.TheVariants.{NoRoom};

use crate::entry::{Entry, LENGTHS, sizes};
use crate::error::PageError;
use crate::places::{place_of, put_at};
use bx_base::{OutOfMemory, Raw};
use std::alloc::Global;
use std::marker::Model;
use std::mem;

/// How many bytes a page takes.
pub(crate) const SIZE: usize = 4096;

/// What a page takes beside its high key and its entries: its numbers.
pub(crate) const NUMBERS: usize = 16;

/// A page. Contracts see it as its level, its right link, its high key and the list of its entries.
#[derive(Drop)]
pub struct Page {
    pub(crate) alloc: Global,
    pub(crate) level: u16,
    pub(crate) right: u64,
    pub(crate) high: Option<Raw>,
    pub(crate) entries: Vec<Entry>,
}

impl Model for Page {
    ghost use Rattle.bx_page.specs.Contents.{Contents};

    ghost Value = { Contents };

    ghost use Rattle.bx_page.specs.View.{contents_of, HoldsPage};

    ghost view = { contents_of };

    ghost invariant = { HoldsPage };
}

impl Page {
    /// The page of a level with no entries, no high key and no page on its right. It takes no memory.
    pub fn new(alloc: Global, level: u16) -> Page
        ensures { result ≡ record { level = level; right = 0; high = None; entries = [] } }
    {
        Page {
            alloc,
            level,
            right: 0,
            high: None,
            entries: Vec::new(alloc),
        }
    }

    /// The level.
    pub fn level(&self) -> u16
        ensures { result ≡ self.now.level }
    {
        self.level
    }

    /// The link to the page on the right; 0 where there is none.
    pub fn right(&self) -> u64
        ensures { result ≡ self.now.right }
    {
        self.right
    }

    /// The high key, which every key is below; `None` where there is none.
    pub fn high(&self) -> Option<&[u8]>
        ensures { option_copied result ≡ self.now.high }
    {
        match &self.high {
            None => None,
            Some(high) => Some(high.bytes()),
        }
    }

    /// How many entries there are.
    pub fn len(&self) -> usize
        ensures { result ≡ length self.now.entries }
    {
        self.entries.len()
    }

    /// The entry at a place in the order of keys, counted from 0; `None` exactly where there are no more entries.
    pub fn entry(&self, at: usize) -> Option<&Entry>
        ensures { option_copied result ≡ slice_get self.now.entries at }
    {
        self.entries.get(at)
    }

    /// How many more bytes fit into the page.
    pub fn room(&self) -> usize
        ensures { result + size self.now ≡ 4096 }
    {
        SIZE - self.used()
    }

    /// How many bytes the page takes.
    fn used(&self) -> usize
        ensures used { result ≡ size self.now }
        ensures most { result ≤ 4096 }
    {
        let high = match &self.high {
            None => 0,
            Some(high) => high.bytes().len(),
        };
        NUMBERS + high + sizes(&self.entries)
    }

    /// The value of a key; `None` exactly where the key isn't there.
    pub fn get(&self, key: &[u8]) -> Option<&[u8]>
        ensures { option_copied result ≡ value_of self.now.entries key.now }
    {
        match place_of(&self.entries, key) {
            Err(_) => None,
            Ok(place) => {
                let entry = &self.entries[place];
                Some(entry.value.bytes())
            }
        }
    }

    /// The entry with the greatest key that isn't above a key; `None` exactly where all keys are above it.
    pub fn last_up_to(&self, key: &[u8]) -> Option<&Entry>
        ensures { option_copied result ≡ last (up_to self.now.entries key.now) }
    {
        match place_of(&self.entries, key) {
            Ok(place) => Some(&self.entries[place]),
            Err(0) => None,
            Err(place) => Some(&self.entries[place - 1]),
        }
    }

    /// The entry with the least key that isn't below a key; `None` exactly where all keys are below it.
    pub fn first_from(&self, key: &[u8]) -> Option<&Entry>
        ensures { option_copied result ≡ first (from self.now.entries key.now) }
    {
        let place = match place_of(&self.entries, key) {
            Ok(place) => place,
            Err(place) => place,
        };
        self.entries.get(place)
    }

    /// Puts a value for a key, in place of the value that the key had. The key is below the high key, where there is one,
    /// and has at most 256 bytes, with its value at most 268. Above the leaves the value is the handle of a child, of
    /// eight bytes. `NoRoom` exactly where the page would take more than 4096 bytes. On an error nothing changes.
    pub fn put(&mut self, key: &[u8], value: &[u8]) -> Result<(), PageError>
        requires key { length key.now ≤ 256 }
        requires both { length key.now + length value.now ≤ 268 }
        requires child { 0 < self.old.level → length value.now ≡ 8 }
        requires below { IfSome self.old.high (λ high. IsBelow key.now high) }
        ensures ok { OnOk result (self.new ≡ with_value self.old key.now value.now) }
        ensures err { OnErr result (self.new ≡ self.old) }
        ensures no_room { IsErrOf result NoRoom ↔ (4096 < size (with_value self.old key.now value.now)) }
    {
        let place = place_of(&self.entries, key);
        if SIZE < self.size_with(&place, key, value) {
            return Err(PageError::NoRoom);
        }
        let Ok(()) = put_at(self.alloc, &mut self.entries, &place, key, value) else {
            return Err(PageError::OutOfMemory);
        };
        Ok(())
    }

    /// How many bytes the page would take with a value for a key, whose place is this.
    fn size_with(&self, place: &Result<usize, usize>, key: &[u8], value: &[u8]) -> usize
        requires both { length key.now + length value.now ≤ 268 }
        requires place { IsPlace self.now.entries key.now place.now }
        ensures { result ≡ size (with_value self.now key.now value.now) }
    {
        match place {
            Ok(place) => self.used() - self.entries[*place].value.bytes().len() + value.len(),
            Err(_) => self.used() + LENGTHS + key.len() + value.len(),
        }
    }

    /// Takes the entry of a key out. `false` exactly where the key isn't there, and nothing changes then.
    pub fn take(&mut self, key: &[u8]) -> bool
        ensures taken { self.new ≡ without_key self.old key.now }
        ensures found { IsTrue result ↔ IsSome (value_of self.old.entries key.now) }
    {
        match place_of(&self.entries, key) {
            Err(_) => false,
            Ok(place) => {
                let _entry = self.entries.remove(place);
                true
            }
        }
    }

    /// Gives the entries from the middle on to a new page, which is on the right of this one and has the high key and the
    /// right link that this one had. `right` is the link to it; this page's high key is now the first key there. There are
    /// at least two entries. Where memory runs out, nothing changes.
    pub fn halve(&mut self, right: u64) -> Result<Page, OutOfMemory>
        requires { 2 ≤ length self.old.entries }
        ensures kept { OnOk result (self.new ≡ first_half self.old right) }
        ensures given { IfOk result (λ page. page ≡ other_half self.old) }
        ensures err { OnErr result (self.new ≡ self.old) }
    {
        let half = self.entries.len() / 2;
        let middle = &self.entries[half];
        let high = Raw::of(self.alloc, middle.key.bytes())?;
        let entries = self.entries.split_off(half)?;
        Ok(Page {
            alloc: self.alloc,
            level: self.level,
            right: mem::replace(&mut self.right, right),
            high: mem::replace(&mut self.high, Some(high)),
            entries,
        })
    }
}
