//! Bytes that own their memory.

ghost use Rattle.std.specs.Prelude.{◌≡◌, ◌<◌, IfOk, length, slice_set};

use crate::memory::OutOfMemory;
use std::alloc::Global;
use std::marker::Model;

/// A list of bytes. Contracts see it as that list.
#[derive(Debug, Drop)]
pub struct Raw {
    bytes: Vec<u8>,
}

impl Model for Raw {
    ghost use Rattle.std.specs.Prelude.{ℕ, List};

    ghost Value = { List ℕ };

    ghost view = { λ raw. raw.bytes.items };
}

impl Raw {
    /// A copy of the bytes.
    pub fn of(alloc: Global, bytes: &[u8]) -> Result<Raw, OutOfMemory>
        ensures { IfOk result (λ raw. raw ≡ bytes.now) }
    {
        let bytes = Vec::from_slice(alloc, bytes)?;
        Ok(Raw { bytes })
    }

    /// The bytes.
    pub fn bytes(&self) -> &[u8]
        ensures { result.now ≡ self.now }
    {
        self.bytes.as_slice()
    }

    /// Puts a byte in the place of the one at a place, counted from 0.
    pub fn set(&mut self, at: usize, byte: u8)
        requires { at < length self.old }
        ensures { self.new ≡ slice_set self.old at byte }
    {
        self.bytes[at] = byte;
    }
}

impl From<Vec<u8>> for Raw {
    ghost from_gives = { λ bytes raw. raw ≡ bytes.items };

    fn from(bytes: Vec<u8>) -> Raw {
        Raw { bytes }
    }
}
