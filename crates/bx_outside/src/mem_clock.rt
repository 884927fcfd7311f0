//! A clock in memory.

ghost use Rattle.std.specs.Prelude.{◌≡◌, ◌<◌, ℕ, List, ◌∷◌, ◌++◌, [], length, IfOk};
ghost use Rattle.bx_outside.specs.Clocks.{Ticking, MayHaveGiven, after_tick, reading_of};

use crate::clock::Clock;
use bx_base::OutOfMemory;
use std::alloc::Global;
use std::marker::Model;

/// A clock that gives these readings, one after the other, and then the last one for ever.
#[derive(Drop)]
pub struct MemClock {
    readings: Vec<u64>,
    at: usize,
}

impl Model for MemClock {
    ghost use Rattle.std.specs.Prelude.{◌<◌, length};
    ghost use Rattle.bx_outside.specs.Clocks.{Ticking};

    ghost Value = { Ticking };

    ghost view = { λ clock. record { readings = clock.readings.items; at = clock.at } };

    ghost invariant = { λ clock. clock.at < length clock.readings.items };
}

impl MemClock {
    /// A clock that gives these readings, in milliseconds.
    pub fn new(alloc: Global, readings: &[u64]) -> Result<MemClock, OutOfMemory>
        requires { 0 < length readings.now }
        ensures { IfOk result (λ clock. clock ≡ record { readings = readings.now; at = 0 }) }
    {
        Ok(MemClock {
            readings: Vec::from_slice(alloc, readings)?,
            at: 0,
        })
    }
}

impl Clock for MemClock {
    ghost use Rattle.bx_outside.specs.Clocks.{MayHaveGiven};

    ghost gave = { MayHaveGiven };

    fn now(&mut self) -> u64
        ensures exact { result ≡ reading_of self.old }
        ensures after { self.new ≡ after_tick self.old }

        ensures gave { (readings : List ℕ) → MayHaveGiven self.old readings → MayHaveGiven self.new (readings ++ result ∷ []) }
    {
        let reading = self.readings[self.at];
        if self.at + 1 < self.readings.len() {
            self.at += 1;
        }
        reading
    }
}
