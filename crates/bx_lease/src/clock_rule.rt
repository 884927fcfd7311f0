//! How far the readings of a clock may go back.

ghost use Rattle.std.specs.Prelude.{◌≡◌, ◌↔◌, max, IsErr, IfErr, OnOk, OnErr};
ghost use Rattle.bx_lease.specs.Readings.{IsTooFarBack, back_by};

use std::marker::Model;
use thiserror::Error;

/// How many milliseconds a reading may lie behind the greatest one.
const ALLOWED: u64 = 500;

/// A reading lies further back than is allowed, by so many milliseconds. It is at least 1.
#[derive(Clone, Copy, PartialEq, Eq, Debug, Error)]
#[error("a reading lies {0} ms too far back")]
pub struct BackBy(pub u64);

/// The rule for readings of clocks. Contracts see it as the greatest reading so far, in milliseconds.
#[derive(Clone, Copy, PartialEq, Eq)]
pub struct ClockRule {
    greatest: u64,
}

impl Model for ClockRule {
    ghost use Rattle.std.specs.Prelude.{ℕ};

    ghost Value = { ℕ };

    ghost view = { λ rule. rule.greatest };

    ghost inverse = { λ n. record { greatest = n } };
}

impl ClockRule {
    /// The rule before the first reading: the greatest is 0.
    pub fn new() -> ClockRule
        ensures { result ≡ 0 }
    {
        ClockRule { greatest: 0 }
    }

    /// Takes a reading, in milliseconds and of any size. It is refused exactly where it lies more than 500 ms
    /// behind the greatest reading so far. A refusal changes nothing.
    pub fn take(&mut self, reading: u64) -> Result<(), BackBy>
        ensures refused { IsErr result ↔ IsTooFarBack self.old reading }
        ensures by { IfErr result (λ back. back.0 ≡ back_by self.old reading) }
        ensures ok { OnOk result (self.new ≡ max self.old reading) }
        ensures err { OnErr result (self.new ≡ self.old) }
    {
        let behind = self.greatest.saturating_sub(reading);
        if behind > ALLOWED {
            return Err(BackBy(behind - ALLOWED));
        }
        self.greatest = self.greatest.max(reading);
        Ok(())
    }

    /// The greatest reading so far, in milliseconds, or 0 before the first one.
    pub fn greatest(&self) -> u64
        ensures { result ≡ self.now }
    {
        self.greatest
    }
}
