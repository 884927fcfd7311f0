//! The handles that were ever given out.

ghost use Rattle.std.specs.Prelude.{◌≡◌, ◌==◌, [], OnOk, OnErr};
ghost use Rattle.std.specs.List.{list_any};
ghost use Rattle.bx_tree_parts.specs.Given.{with_handle, without_handle};

use bx_base::OutOfMemory;
use std::alloc::Global;
use std::collections::BTreeSet;
use std::marker::Model;

/// Handles. Contracts see them as a list in rising order.
#[derive(Drop)]
pub struct Handles {
    numbers: BTreeSet<u64>,
}

impl Model for Handles {
    ghost use Rattle.std.specs.Prelude.{ℕ, List};
    ghost use Rattle.std.specs.List.Sorted.{IsStrictlySortedBy};
    ghost use Rattle.std.specs.Ordering.{nat_cmp};

    ghost Value = { List ℕ };

    ghost view = { λ handles. handles.numbers.keys };
}

impl Handles {
    /// No handles. It takes no memory.
    pub fn new(alloc: Global) -> Handles
        ensures { result ≡ [] }
    {
        Handles {
            numbers: BTreeSet::new(alloc),
        }
    }

    /// Whether a handle is among them.
    pub fn contains(&self, handle: u64) -> bool
        ensures { result ≡ list_any (λ other. other == handle) self.now }
    {
        self.numbers.contains(&handle)
    }

    /// Puts a handle among them.
    pub fn insert(&mut self, handle: u64) -> Result<(), OutOfMemory>
        ensures ok { OnOk result (self.new ≡ with_handle self.old handle) }
        ensures err { OnErr result (self.new ≡ self.old) }
    {
        self.numbers.insert(handle)?;
        Ok(())
    }

    /// Takes a handle out, if it is among them.
    pub fn remove(&mut self, handle: u64)
        ensures { self.new ≡ without_handle self.old handle }
    {
        self.numbers.remove(&handle);
    }
}
