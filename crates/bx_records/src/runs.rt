//! Runs of sectors that are written.

ghost use Rattle.std.specs.Prelude.{◌≡◌, ◌++◌, ◌∷◌, [], length, OnOk, OnErr, slice_get};
ghost use Rattle.std.specs.Option.{option_copied};

use bx_layout::base::{List, OutOfMemory, Raw};
use std::alloc::Global;
use std::marker::Model;

/// The bytes of sectors that stand one behind the other.
#[derive(Drop)]
pub struct Run {
    /// The device, from 0 on.
    pub device: u32,
    /// The first of the sectors on the device.
    pub place: u64,
    /// The bytes, 512 for each sector.
    pub bytes: Raw,
}

/// Runs in their order, and the kind number of the packets that carry them. Contracts see it as that pair.
#[derive(Drop)]
pub struct Runs {
    kind: u8,
    runs: List<Run>,
}

impl Model for Runs {
    ghost use Rattle.bx_records.specs.Runs.{KindAndRuns};

    ghost Value = { KindAndRuns };

    ghost view = { λ all. (all.kind, all.runs) };
}

impl Runs {
    /// No runs yet, of a kind. It takes no memory.
    pub fn new(alloc: Global, kind: u8) -> Runs
        ensures { result ≡ (kind, []) }
    {
        Runs {
            kind,
            runs: List::new(alloc),
        }
    }

    /// The kind number.
    pub fn kind(&self) -> u8
        ensures { result ≡ self.now.0 }
    {
        self.kind
    }

    /// How many runs there are.
    pub fn len(&self) -> usize
        ensures { result ≡ length self.now.1 }
    {
        self.runs.len()
    }

    /// The run at a place, counted from 0; `None` exactly where there are no more.
    pub fn get(&self, at: usize) -> Option<&Run>
        ensures { option_copied result ≡ slice_get self.now.1 at }
    {
        self.runs.get(at)
    }

    /// Puts a run at the end. Where memory runs out, nothing changes.
    pub fn push(&mut self, run: Run) -> Result<(), OutOfMemory>
        ensures ok { OnOk result (self.new ≡ (self.old.0, self.old.1 ++ run ∷ [])) }
        ensures err { OnErr result (self.new ≡ self.old) }
    {
        self.runs.push(run)?;
        Ok(())
    }
}
