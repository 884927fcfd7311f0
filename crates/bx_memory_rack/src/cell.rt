//! A sector that was written.

ghost use Rattle.std.specs.Prelude.{◌≡◌, if◌then◌else◌, length, IfOk};
ghost use Rattle.bx_disk.specs.Crash.{drawn};
ghost use Rattle.bx_memory_rack.specs.Cells.{blank_cell, is_unsure, left_cell, written_cell};

use crate::sector::Sector;
use bx_base::OutOfMemory;
use rand_pcg::Pcg32;
use std::alloc::Global;

/// A sector that was written: what it reads as, what it held at its last sync, and how long the record was once it
/// was written. It is unsure where its disk was synced before that.
#[derive(Drop)]
pub struct Cell {
    pub now: Sector,
    pub held: Sector,
    pub since: usize,
}

impl Cell {
    /// A sector that was never written.
    pub fn blank(alloc: Global) -> Result<Cell, OutOfMemory>
        ensures { IfOk result (λ cell. cell ≡ blank_cell) }
    {
        Ok(Cell {
            now: Sector::zero(alloc)?,
            held: Sector::zero(alloc)?,
            since: 0,
        })
    }

    /// Writes the sector.
    pub fn write(&mut self, content: &[u8], synced: usize, since: usize)
        requires { length content.now ≡ 512 }
        ensures { self.new ≡ written_cell synced since self.old content.now }
    {
        if self.since <= synced {
            self.held.set(self.now.bytes());
        }
        self.now.set(content);
        self.since = since;
    }

    /// Puts back what the sector held at its last sync, where it is unsure.
    pub fn drop_unsure(&mut self, synced: usize)
        ensures { self.new ≡ left_cell synced self.old self.old.held }
    {
        if self.since > synced {
            self.now.set(self.held.bytes());
        }
    }

    /// Leaves the next words of a generator in the sector, where it is unsure.
    pub fn fill_unsure(&mut self, synced: usize, generator: &mut Pcg32)
        ensures cell { self.new ≡ left_cell synced self.old (drawn generator.old).0 }
        ensures generator { generator.new ≡ (if is_unsure synced self.old then (drawn generator.old).1 else generator.old) }
    {
        if self.since > synced {
            self.now.fill(generator);
        }
    }
}
