//! An entry of a page.

ghost use Rattle.std.specs.Prelude.{◌≡◌, ◌+◌, ◌^◌, ◌<◌, ◌≤◌, length, sum_by, IfOk};
ghost use Rattle.bx_page.specs.Contents.{entry_size};

use bx_base::{OutOfMemory, Raw};
use std::alloc::Global;

/// A key and its value.
#[derive(Drop)]
pub struct Entry {
    pub key: Raw,
    pub value: Raw,
}

/// What an entry takes beside its key and its value: their lengths.
pub(crate) const LENGTHS: usize = 4;

impl Entry {
    /// An entry with copies of these bytes.
    pub(crate) fn of(alloc: Global, key: &[u8], value: &[u8]) -> Result<Entry, OutOfMemory>
        ensures key { IfOk result (λ entry. entry.key ≡ key.now) }
        ensures value { IfOk result (λ entry. entry.value ≡ value.now) }
    {
        let key = Raw::of(alloc, key)?;
        let value = Raw::of(alloc, value)?;
        Ok(Entry { key, value })
    }
}

/// The sum of the sizes of entries, which is at most 4096.
pub(crate) fn sizes(entries: &[Entry]) -> usize
    requires { sum_by entry_size entries.now ≤ 4096 }
    ensures { result ≡ sum_by entry_size entries.now }
{
    let mut sum = 0;
    for entry in entries {
        sum += LENGTHS + (entry.key.bytes().len() + entry.value.bytes().len());
    }
    sum
}
