//! The numbers of a tree's files.

ghost use Rattle.std.specs.Prelude.{◌≡◌, ◌==◌, ◌&&◌, ◌↔◌, ℕ, false, true, if◌then◌else◌, IsTrue, OnOk, OnErr};
ghost use Rattle.bx_tree_parts.specs.Fileids.{has_pair};

use bx_base::OutOfMemory;
use std::alloc::Global;
use std::collections::BTreeSet;
use std::ops::Bound;

/// The numbers of files, each with the file's handle.
#[derive(Drop)]
pub struct Fileids {
    pairs: BTreeSet<(u32, u64)>,
}

impl Fileids {
    /// No numbers. It takes no memory.
    pub fn new(alloc: Global) -> Fileids
        ensures { (fileid handle : ℕ) → has_pair result fileid handle ≡ false }
    {
        Fileids {
            pairs: BTreeSet::new(alloc),
        }
    }

    /// Whether a file has the number.
    pub fn has(&self, fileid: u32) -> bool
        ensures { IsTrue result ↔ ((handle : ℕ) × IsTrue (has_pair self.now fileid handle)) }
    {
        let mut from = self
            .pairs
            .range((Bound::Included((fileid, 0)), Bound::Unbounded));
        match from.next() {
            Some(pair) => pair.0 == fileid,
            None => false,
        }
    }

    /// Puts a file's number and handle among them.
    pub fn put(&mut self, fileid: u32, handle: u64) -> Result<(), OutOfMemory>
        ensures ok { OnOk result ((other at : ℕ) → has_pair self.new other at ≡ (if (fileid == other) && (handle == at) then true else has_pair self.old other at)) }
        ensures err { OnErr result ((other at : ℕ) → has_pair self.new other at ≡ has_pair self.old other at) }
    {
        self.pairs.insert((fileid, handle))?;
        Ok(())
    }

    /// Takes a file's number and handle out.
    pub fn take(&mut self, fileid: u32, handle: u64)
        ensures { (other at : ℕ) → has_pair self.new other at ≡ (if (fileid == other) && (handle == at) then false else has_pair self.old other at) }
    {
        self.pairs.remove(&(fileid, handle));
    }
}
