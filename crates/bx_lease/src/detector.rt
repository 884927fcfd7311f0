//! Which machines have been silent for too long.

ghost use Rattle.std.specs.Prelude.{◌≡◌, ◌<◌, ◌↔◌, length, replicate, slice_index, slice_set, IsTrue};
ghost use Rattle.bx_lease.specs.Readings.{IsSilent};

use std::marker::Model;

/// How many milliseconds a machine may be silent.
const PATIENCE: u64 = 2000;

/// When each of eight machines, 0 to 7, was last heard, in milliseconds. Contracts see the list of the eight
/// readings.
#[derive(Clone, Copy, PartialEq, Eq)]
pub struct Detector {
    last: [u64; 8],
}

impl Model for Detector {
    ghost use Rattle.std.specs.Prelude.{ℕ, List};

    ghost Value = { List ℕ };

    ghost view = { λ detector. detector.last };

    ghost inverse = { λ readings. record { last = readings } };
}

impl Detector {
    /// A detector for which all eight were heard at this reading.
    pub fn new(reading: u64) -> Detector
        ensures { result ≡ replicate 8 reading }
    {
        Detector { last: [reading; 8] }
    }

    /// Notes that a machine, 0 to 7, was heard at this reading. What counts is the reading of the latest call,
    /// also where an earlier call had a greater one.
    pub fn heard(&mut self, who: u32, reading: u64)
        requires { who < 8 }
        ensures heard { self.new ≡ slice_set self.old who reading }
        ensures eight { length self.new ≡ 8 }
    {
        self.last[who as usize] = reading;
    }

    /// Whether a machine, 0 to 7, was last heard more than 2000 ms before this reading.
    pub fn suspects(&self, who: u32, reading: u64) -> bool
        requires { who < 8 }
        ensures silent { IsTrue result ↔ IsSilent (slice_index self.now who) reading }
        ensures eight { length self.now ≡ 8 }
    {
        reading.saturating_sub(self.last[who as usize]) > PATIENCE
    }
}
