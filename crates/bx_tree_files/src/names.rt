//! Entries of directories.

ghost use Rattle.std.specs.Prelude.{◌≡◌, ◌==◌, ◌||◌, ◌↔◌, [], ◌∷◌, ◌++◌, length, codes, bytes_eq, option_map, IsTrue, OnOk, OnErr};
ghost use Rattle.std.specs.List.{list_any};
ghost use Rattle.std.specs.Option.{option_copied};
ghost use Rattle.std.specs.Map.{values_of};
ghost use Rattle.bx_tree_files.specs.Entries.{AreBelow, above, entry_named, is_bad as is_bad_name, with_name, without_name};

use crate::file::Name;
use bx_tree_parts::NameIndex;
use bx_tree_parts::base::{OutOfMemory, Raw};
use std::alloc::Global;
use std::collections::BTreeMap;
use std::collections::btree_map::{Range, Values};
use std::marker::Model;
use std::ops::Bound;

/// Entries of a directory with different names, in the order of their numbers. Contracts see them as that list.
#[derive(Drop)]
pub struct NameList {
    alloc: Global,
    by_number: BTreeMap<u32, Name>,
    numbers: NameIndex,
}

impl Model for NameList {
    ghost use Rattle.std.specs.Prelude.{List};
    ghost use Rattle.std.specs.Map.{values_of};
    ghost use Rattle.bx_tree_files.specs.declared.file.Name.{Name};
    ghost use Rattle.bx_tree_files.specs.Entries.{AreEntries};

    ghost Value = { List Name };

    ghost view = { λ names. values_of names.by_number.entries };

    ghost invariant = { λ names. AreEntries names.by_number.entries names.numbers };
}

impl NameList {
    /// No entries. It takes no memory.
    pub fn new(alloc: Global) -> NameList
        ensures { result ≡ [] }
    {
        NameList {
            alloc,
            by_number: BTreeMap::new(alloc),
            numbers: NameIndex::new(alloc),
        }
    }

    /// Whether there are no entries.
    pub fn is_empty(&self) -> bool
        ensures { IsTrue result ↔ (length self.now ≡ 0) }
    {
        self.by_number.is_empty()
    }

    /// The entry with a name; `None` exactly where there is none.
    pub fn named(&self, name: &[u8]) -> Option<&Name>
        ensures { option_copied result ≡ entry_named self.now name.now }
    {
        let number = self.number_of(name)?;
        self.by_number.get(&number)
    }

    /// The entries in the order of their numbers.
    pub fn iter(&self) -> Values<'_, u32, Name>
        ensures { result ≡ self.now }
    {
        self.by_number.values()
    }

    /// The entries with numbers above one, in their order, each behind its number.
    pub fn behind(&self, number: u32) -> Range<'_, u32, Name>
        ensures { values_of result ≡ above number self.now }
    {
        self.by_number
            .range((Bound::Excluded(number), Bound::Unbounded))
    }

    /// Puts an entry behind the others.
    pub fn push(&mut self, number: u32, name: &[u8], handle: u64) -> Result<(), OutOfMemory>
        requires below { AreBelow number self.old }
        requires apart { entry_named self.old name.now ≡ None }
        ensures ok { OnOk result (self.new ≡ with_name self.old number name.now handle) }
        ensures err { OnErr result (self.new ≡ self.old) }
    {
        let entry = Name {
            number,
            name: Raw::of(self.alloc, name)?,
            handle,
        };
        self.numbers.put(self.alloc, name, number)?;
        match self.by_number.insert(number, entry) {
            Ok(_) => Ok(()),
            Err(_) => {
                self.numbers.take(name);
                Err(OutOfMemory)
            }
        }
    }

    /// Puts an entry behind the others; the one with its name goes, if there is one. Without memory both stay as they
    /// were: the new one comes in before the old one goes.
    pub fn replace(&mut self, number: u32, name: &[u8], handle: u64) -> Result<(), OutOfMemory>
        requires below { AreBelow number self.old }
        ensures ok { OnOk result (self.new ≡ with_name (without_name self.old name.now) number name.now handle) }
        ensures err { OnErr result (self.new ≡ self.old) }
    {
        match self.number_of(name) {
            None => self.push(number, name, handle),
            Some(before) => self.exchange(before, number, name, handle),
        }
    }

    /// The same where the entry with the name that goes has this number.
    fn exchange(
        &mut self,
        before: u32,
        number: u32,
        name: &[u8],
        handle: u64,
    ) -> Result<(), OutOfMemory>
        requires below { AreBelow number self.old }
        requires there { option_map (λ entry. entry.number) (entry_named self.old name.now) ≡ Some before }
        ensures ok { OnOk result (self.new ≡ with_name (without_name self.old name.now) number name.now handle) }
        ensures err { OnErr result (self.new ≡ self.old) }
    {
        let entry = Name {
            number,
            name: Raw::of(self.alloc, name)?,
            handle,
        };
        self.by_number.insert(number, entry)?;
        self.by_number.remove(&before);
        self.numbers.change(name, number);
        Ok(())
    }

    /// Takes out the entry of a name, if there is one.
    pub fn take_out(&mut self, name: &[u8])
        ensures { self.new ≡ without_name self.old name.now }
    {
        if let Some(number) = self.numbers.take(name) {
            self.by_number.remove(&number);
        }
    }

    /// The number of the entry with a name.
    fn number_of(&self, name: &[u8]) -> Option<u32>
        ensures { result ≡ option_map (λ entry. entry.number) (entry_named self.now name.now) }
    {
        self.numbers.get(name)
    }
}

/// Whether no entry may have the name: it is empty, `.` or `..`, or has a byte `/` or 0.
pub fn is_bad(name: &[u8]) -> bool
    ensures { result ≡ is_bad_name name.now }
{
    name.is_empty() || is_dots(name) || has_bad_byte(name)
}

/// Whether a name is `.` or `..`.
fn is_dots(name: &[u8]) -> bool
    ensures { result ≡ bytes_eq name.now (codes ".") || bytes_eq name.now (codes "..") }
{
    name == b".".as_slice() || name == b"..".as_slice()
}

/// Whether a name has a byte `/` or 0.
fn has_bad_byte(name: &[u8]) -> bool
    ensures { result ≡ list_any (λ byte. (byte == 47) || (byte == 0)) name.now }
{
    name.iter().any(|byte| *byte == b'/' || *byte == 0)
}
