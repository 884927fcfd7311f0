//! A source in memory.

ghost use Rattle.std.specs.Prelude.{◌≡◌, ◌≤◌, ◌<◌, List, [], ◌++◌, length, take, IfOk, IfErr, OnOk, OnErr, Ok, Err, if◌then◌else◌};
ghost use Rattle.bx_base.specs.Faults.{Rose, count_up};
ghost use Rattle.bx_outside.specs.Memory.{Reading, fails, read_count, after_read};

use crate::source::{ReadFault, Source};
use bx_base::OutOfMemory;
use std::alloc::Global;
use std::marker::Model;

/// A source of given bytes, of which given calls of `read` fail.
#[derive(Drop)]
pub struct MemSource {
    bytes: Vec<u8>,
    at: usize,
    calls: u64,
    failing: Vec<u64>,
    faults: u64,
}

impl Model for MemSource {
    ghost use Rattle.std.specs.Prelude.{◌≤◌, length, drop};
    ghost use Rattle.bx_outside.specs.Memory.{Reading};

    ghost Value = { Reading };

    ghost view = { λ s. record { left = drop s.at s.bytes.items; calls = s.calls; failing = s.failing.items; faults = s.faults } };

    ghost invariant = { λ s. s.at ≤ length s.bytes.items };
}

impl MemSource {
    /// A source of these bytes. The reads whose numbers, counted from 1, stand in `faults` fail.
    pub fn new(alloc: Global, bytes: &[u8], faults: &[u64]) -> Result<MemSource, OutOfMemory>
        ensures { IfOk result (λ source. source ≡ record { left = bytes.now; calls = 0; failing = faults.now; faults = 0 }) }
    {
        Ok(MemSource {
            bytes: Vec::from_slice(alloc, bytes)?,
            at: 0,
            calls: 0,
            failing: Vec::from_slice(alloc, faults)?,
            faults: 0,
        })
    }
}

impl Source for MemSource {
    ghost tells = { λ _. Unit {0} };

    ghost left = { λ s. s.left };

    ghost faults = { λ s. s.faults };

    fn read(&mut self, into: &mut [u8]) -> Result<usize, ReadFault>
        // All that there is room for, unless this call is one of those that fail.
        ensures exact { result ≡ (if fails self.old.failing (count_up self.old.calls) then Err record {} else Ok (read_count self.old (length into.old))) }
        ensures after { self.new ≡ after_read self.old (length into.old) }

        ensures fits { IfOk result (λ count. count ≤ length into.old) }
        ensures given { Unit {0} → IfOk result (λ count. self.old.left ≡ take count into.new ++ self.new.left) }
        ensures end { Unit {0} → 0 < length into.old → IfOk result (λ count. count ≡ 0 → self.old.left ≡ []) }
        ensures no_fault { OnOk result (self.new.faults ≡ self.old.faults) }
        ensures fault { OnErr result (Rose self.old.faults self.new.faults) }
        ensures fault_keeps { Unit {0} → OnErr result (self.new.left ≡ self.old.left) }
        ensures later { self.old.faults ≤ self.new.faults }
        ensures keeps_telling { Unit {0} → Unit {0} }
    {
        self.calls = self.calls.saturating_add(1);
        if self.failing.contains(&self.calls) {
            self.faults = self.faults.saturating_add(1);
            return Err(ReadFault);
        }
        let left = &self.bytes[self.at..];
        let count = left.len().min(into.len());
        into[..count].copy_from_slice(&left[..count]);
        self.at += count;
        Ok(count)
    }
}
