//! A generated schedule as a source of bytes.

ghost use Rattle.std.specs.Prelude.{◌≡◌, ◌≤◌, ◌<◌, ◌^◌, [], ◌++◌, length, take, IfOk, OnOk, OnErr, min};
ghost use Rattle.bx_base.specs.Faults.{Rose};
ghost use Rattle.bx_generated.specs.Schedules.{generated_text};

use bx_base::OutOfMemory;
use bx_generated::Generated;
use bx_outside::{ReadFault, Source};
use std::alloc::Global;
use std::marker::Model;

/// A source of the text of a generated schedule, of which it has the lines of one call at a time. It fails for want of memory alone.
#[derive(Drop)]
pub struct GeneratedSource {
    generated: Generated,
    alloc: Global,
    text: Vec<u8>,
    at: usize,
    faults: u64,
}

impl Model for GeneratedSource {
    ghost use Rattle.std.specs.Prelude.{◌≤◌, length, drop};
    ghost use Rattle.bx_make.specs.Feeding.{Feeding, text_left};

    ghost Value = { Feeding };

    ghost view = { λ s. record { ahead = drop s.at s.text.items; behind = text_left s.generated; faults = s.faults } };

    ghost invariant = { λ s. s.at ≤ length s.text.items };
}

impl GeneratedSource {
    /// A source of the schedule of a seed, with so many nodes, and calls, at most 20000.
    pub fn new(
        alloc: Global,
        seed: u64,
        nodes: u32,
        calls: u32,
    ) -> Result<GeneratedSource, OutOfMemory>
        requires some { 1 ≤ nodes }
        requires most { calls ≤ 20000 }
        ensures text { IfOk result (λ source. source.ahead ++ source.behind ≡ generated_text seed nodes calls) }
        ensures fits { seed < 2 ^ 64 }
    {
        let generated = Generated::new(seed, nodes, calls);
        let mut text = Vec::new(alloc);
        generated.put_heading(&mut text)?;
        Ok(GeneratedSource {
            generated,
            alloc,
            text,
            at: 0,
            faults: 0,
        })
    }

    // Makes the next call where no byte is ahead.
    fn refill(&mut self) -> Result<(), OutOfMemory>
        ensures same { self.new.ahead ++ self.new.behind ≡ self.old.ahead ++ self.old.behind }
        ensures faults { self.new.faults ≡ self.old.faults }
        ensures none { OnOk result (length self.new.ahead ≡ 0 → self.new.behind ≡ []) }
    {
        if self.at < self.text.len() {
            return Ok(());
        }
        if self.generated.is_done() {
            return Ok(());
        }
        let mut text = Vec::new(self.alloc);
        self.generated.put_next(self.alloc, &mut text)?;
        self.text = text;
        self.at = 0;
        Ok(())
    }
}

impl Source for GeneratedSource {
    ghost tells = { λ _. Unit {0} };

    ghost left = { λ s. s.ahead ++ s.behind };

    ghost faults = { λ s. s.faults };

    fn read(&mut self, into: &mut [u8]) -> Result<usize, ReadFault>
        ensures fits { IfOk result (λ count. count ≤ length into.old) }
        ensures given { Unit {0} → IfOk result (λ count. self.old.ahead ++ self.old.behind ≡ take count into.new ++ (self.new.ahead ++ self.new.behind)) }
        ensures end { Unit {0} → 0 < length into.old → IfOk result (λ count. count ≡ 0 → self.old.ahead ++ self.old.behind ≡ []) }
        ensures no_fault { OnOk result (self.new.faults ≡ self.old.faults) }
        ensures fault { OnErr result (Rose self.old.faults self.new.faults) }
        ensures fault_keeps { Unit {0} → OnErr result (self.new.ahead ++ self.new.behind ≡ self.old.ahead ++ self.old.behind) }
        ensures later { self.old.faults ≤ self.new.faults }
        ensures keeps_telling { Unit {0} → Unit {0} }
    {
        if self.refill().is_err() {
            self.faults = self.faults.saturating_add(1);
            return Err(ReadFault);
        }
        Ok(self.take(into))
    }
}

impl GeneratedSource {
    // Takes bytes that are ahead, as many as there is room for, and answers how many.
    fn take(&mut self, into: &mut [u8]) -> usize
        ensures count { result ≡ min (length into.old) (length self.old.ahead) }
        ensures taken { self.old.ahead ≡ take result into.new ++ self.new.ahead }
        ensures behind { self.new.behind ≡ self.old.behind }
        ensures faults { self.new.faults ≡ self.old.faults }
    {
        let left = &self.text[self.at..];
        let count = left.len().min(into.len());
        into[..count].copy_from_slice(&left[..count]);
        self.at += count;
        count
    }
}
