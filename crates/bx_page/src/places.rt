//! Where keys stand.

ghost use Rattle.std.specs.Prelude.{◌≡◌, OnOk, OnErr};
ghost use Rattle.bx_page.specs.Contents.{Rises, with_entry};
ghost use Rattle.bx_page.specs.Places.{IsPlace};

use crate::entry::Entry;
use bx_base::{OutOfMemory, Raw};
use std::alloc::Global;

/// The place of the entry with a key, or, where no entry has it, the place where it would stand.
pub(crate) fn place_of(entries: &[Entry], key: &[u8]) -> Result<usize, usize>
    requires { Rises entries.now }
    ensures { IsPlace entries.now key.now result }
{
    entries.binary_search_by(|entry| entry.key.bytes().cmp(key))
}

/// Puts a value for a key, whose place is this, among entries. Where memory runs out, they are as they were.
pub(crate) fn put_at(
    alloc: Global,
    entries: &mut Vec<Entry>,
    place: &Result<usize, usize>,
    key: &[u8],
    value: &[u8],
) -> Result<(), OutOfMemory>
    requires { IsPlace entries.old.items key.now place.now }
    ensures ok { OnOk result (entries.new.items ≡ with_entry entries.old.items key.now value.now) }
    ensures err { OnErr result (entries.new.items ≡ entries.old.items) }
{
    match place {
        Ok(place) => {
            let value = Raw::of(alloc, value)?;
            entries[*place].value = value;
        }
        Err(place) => {
            let entry = Entry::of(alloc, key, value)?;
            entries.insert(*place, entry)?;
        }
    }
    Ok(())
}
