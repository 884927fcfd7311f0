//! Numbers of entries by their names.

ghost use Rattle.std.specs.Prelude.{◌≡◌, ℕ, List, if◌then◌else◌, bytes_eq, Some, None, IsSome, OnOk, OnErr};
ghost use Rattle.bx_tree_parts.specs.NameIndex.{number_in};

use bx_base::OutOfMemory;
use std::alloc::Global;
use std::collections::BTreeMap;

/// The numbers of a directory's entries by their names.
#[derive(Drop)]
pub struct NameIndex {
    by_name: BTreeMap<Vec<u8>, u32>,
}

impl NameIndex {
    /// No numbers. It takes no memory.
    pub fn new(alloc: Global) -> NameIndex
        ensures { (name : List ℕ) → number_in result name ≡ None }
    {
        NameIndex {
            by_name: BTreeMap::new(alloc),
        }
    }

    /// The number of a name; `None` exactly where it has none.
    pub fn get(&self, name: &[u8]) -> Option<u32>
        ensures { result ≡ number_in self.now name.now }
    {
        self.by_name.get(name).copied()
    }

    /// Gives a name a number, in the place of the one that it has.
    pub fn put(&mut self, alloc: Global, name: &[u8], number: u32) -> Result<(), OutOfMemory>
        ensures ok { OnOk result ((other : List ℕ) → number_in self.new other ≡ (if bytes_eq name.now other then Some number else number_in self.old other)) }
        ensures err { OnErr result ((other : List ℕ) → number_in self.new other ≡ number_in self.old other) }
    {
        let name = Vec::from_slice(alloc, name)?;
        self.by_name.insert(name, number)?;
        Ok(())
    }

    /// Gives a name that has a number another one. It takes no memory.
    pub fn change(&mut self, name: &[u8], number: u32)
        requires { IsSome (number_in self.old name.now) }
        ensures { (other : List ℕ) → number_in self.new other ≡ (if bytes_eq name.now other then Some number else number_in self.old other) }
    {
        let Some(value) = self.by_name.get_mut(name) else {
            unreachable!();
        };
        *value = number;
    }

    /// Takes the number of a name, which has none then.
    pub fn take(&mut self, name: &[u8]) -> Option<u32>
        ensures was { result ≡ number_in self.old name.now }
        ensures gone { (other : List ℕ) → number_in self.new other ≡ (if bytes_eq name.now other then None else number_in self.old other) }
    {
        self.by_name.remove(name)
    }
}
