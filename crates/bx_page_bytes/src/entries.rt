//! The entries of a page, one after the other.

ghost use Rattle.std.specs.Prelude.{◌≡◌, drop};
ghost use Rattle.bx_page.specs.Contents.{first};

use crate::reading::entry_of;
use std::marker::Model;

/// An entry in the bytes of a page. Contracts see it as an entry of a page.
#[derive(Drop)]
pub struct EntryBytes<'a> {
    pub(crate) key: &'a [u8],
    pub(crate) value: &'a [u8],
}

impl<'a> Model for EntryBytes<'a> {
    ghost use Rattle.bx_page.specs.declared.entry.Entry.{Entry};

    ghost Value = { Entry };

    ghost use Rattle.bx_page_bytes.specs.Entries.{entry_seen};

    ghost view = { entry_seen };
}

impl<'a> EntryBytes<'a> {
    /// The key.
    pub fn key(&self) -> &'a [u8]
        ensures { result.now ≡ self.now.key }
    {
        self.key
    }

    /// The value.
    pub fn value(&self) -> &'a [u8]
        ensures { result.now ≡ self.now.value }
    {
        self.value
    }
}

/// The entries that stand at the front of bytes. Contracts see them as the list of entries.
#[derive(Drop)]
pub struct Entries<'a> {
    pub(crate) left: u16,
    pub(crate) bytes: &'a [u8],
}

impl<'a> Model for Entries<'a> {
    ghost use Rattle.std.specs.Prelude.{List};
    ghost use Rattle.bx_page.specs.declared.entry.Entry.{Entry};

    ghost Value = { List Entry };

    ghost use Rattle.bx_page_bytes.specs.Entries.{list_seen, AreThere};

    ghost view = { list_seen };

    ghost invariant = { AreThere };
}

impl<'a> Entries<'a> {
    /// The same entries.
    pub(crate) fn copied(&self) -> Entries<'a>
        ensures { result ≡ self.now }
    {
        Entries {
            left: self.left,
            bytes: self.bytes,
        }
    }

    /// The next entry, which is left out then; `None` exactly where there are no more.
    pub fn next(&mut self) -> Option<EntryBytes<'a>>
        ensures next { result ≡ first self.old }
        ensures rest { self.new ≡ drop 1 self.old }
    {
        if self.left == 0 {
            return None;
        }
        match entry_of(self.bytes) {
            Err(_) => None,
            Ok((entry, after)) => {
                self.left -= 1;
                self.bytes = after;
                Some(entry)
            }
        }
    }
}
