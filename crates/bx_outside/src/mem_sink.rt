//! A sink in memory.

ghost use Rattle.std.specs.Prelude.{◌≡◌, ◌≤◌, ◌<◌, List, [], ◌++◌, length, take, IfOk, OnOk, OnErr, IsTrue, IsErr};
ghost use Rattle.bx_base.specs.Faults.{Rose, count_up};
ghost use Rattle.bx_outside.specs.Memory.{Writing, fails, after_write, after_fault};

use crate::sink::{Sink, WriteFault};
use bx_base::OutOfMemory;
use std::alloc::Global;
use std::marker::Model;

/// A sink that keeps what is written, of which given calls of `write` fail.
#[derive(Drop)]
pub struct MemSink {
    bytes: Vec<u8>,
    calls: u64,
    failing: Vec<u64>,
    faults: u64,
}

impl Model for MemSink {
    ghost use Rattle.bx_outside.specs.Memory.{Writing};

    ghost Value = { Writing };

    ghost view = { λ s. record { written = s.bytes.items; calls = s.calls; failing = s.failing.items; faults = s.faults } };
}

impl MemSink {
    /// An empty sink. The writes whose numbers, counted from 1, stand in `faults` fail.
    pub fn new(alloc: Global, faults: &[u64]) -> Result<MemSink, OutOfMemory>
        ensures { IfOk result (λ sink. sink ≡ record { written = []; calls = 0; failing = faults.now; faults = 0 }) }
    {
        Ok(MemSink {
            bytes: Vec::new(alloc),
            calls: 0,
            failing: Vec::from_slice(alloc, faults)?,
            faults: 0,
        })
    }

    /// What was written.
    pub fn bytes(&self) -> &[u8]
        ensures { result.now ≡ self.now.written }
    {
        self.bytes.as_slice()
    }
}

impl Sink for MemSink {
    ghost tells = { λ _. Unit {0} };

    ghost written = { λ s. s.written };

    ghost faults = { λ s. s.faults };

    /// Takes a piece whole. A fault comes at the calls that are to fail, and where there is no room for it.
    fn write(&mut self, piece: &[u8]) -> Result<usize, WriteFault>
        ensures all { IfOk result (λ count. count ≡ length piece.now) }
        ensures after { OnOk result (self.new ≡ after_write self.old piece.now) }
        ensures failing { IsTrue (fails self.old.failing (count_up self.old.calls)) → IsErr result }
        ensures after_fault { OnErr result (self.new ≡ after_fault self.old) }

        ensures fits { IfOk result (λ count. count ≤ length piece.now) }
        ensures some { 0 < length piece.now → IfOk result (λ count. 0 < count) }
        ensures taken { Unit {0} → IfOk result (λ count. self.new.written ≡ self.old.written ++ take count piece.now) }
        ensures no_fault { OnOk result (self.new.faults ≡ self.old.faults) }
        ensures fault { OnErr result (Rose self.old.faults self.new.faults) }
        ensures fault_keeps { Unit {0} → OnErr result (self.new.written ≡ self.old.written) }
        ensures later { self.old.faults ≤ self.new.faults }
        ensures keeps_telling { Unit {0} → Unit {0} }
    {
        self.calls = self.calls.saturating_add(1);
        if self.failing.contains(&self.calls) || self.bytes.extend_from_slice(piece).is_err() {
            self.faults = self.faults.saturating_add(1);
            return Err(WriteFault);
        }
        Ok(piece.len())
    }
}
