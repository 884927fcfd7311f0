//! The bytes of one sector.

ghost use Rattle.std.specs.Prelude.{◌≡◌, IfOk, length};
ghost use Rattle.bx_disk.specs.Disks.{zeros};
ghost use Rattle.bx_disk.specs.Crash.{drawn};

use bx_base::OutOfMemory;
use rand_core::utils;
use rand_pcg::Pcg32;
use std::alloc::Global;
use std::marker::Model;

/// 512 bytes.
#[derive(Drop)]
pub struct Sector {
    bytes: Vec<u8>,
}

impl Model for Sector {
    ghost use Rattle.std.specs.Prelude.{◌≡◌, ℕ, List, length};

    ghost Value = { List ℕ };

    ghost view = { λ sector. sector.bytes.items };

    ghost invariant = { λ sector. length sector.bytes.items ≡ 512 };
}

impl Sector {
    /// A sector of zeros.
    #[tactic(auto, unfolding(bx_disk::specs::Disks::zeros))]
    pub fn zero(alloc: Global) -> Result<Sector, OutOfMemory>
        ensures { IfOk result (λ sector. sector ≡ zeros) }
    {
        Ok(Sector {
            bytes: Vec::from_elem(alloc, 0u8, 512)?,
        })
    }

    /// The bytes.
    pub fn bytes(&self) -> &[u8]
        ensures value { result.now ≡ self.now }
        ensures long { length result.now ≡ 512 }
    {
        self.bytes.as_slice()
    }

    /// Puts other bytes in their place.
    pub fn set(&mut self, bytes: &[u8])
        requires { length bytes.now ≡ 512 }
        ensures { self.new ≡ bytes.now }
    {
        self.bytes.as_mut_slice().copy_from_slice(bytes);
    }

    /// Puts the next 128 words of a generator in their place, each with its low byte first.
    #[tactic(auto, unfolding(bx_disk::specs::Crash::drawn))]
    pub fn fill(&mut self, generator: &mut Pcg32)
        ensures bytes { self.new ≡ (drawn generator.old).0 }
        ensures generator { generator.new ≡ (drawn generator.old).1 }
    {
        utils::fill_bytes_via_u32(generator, self.bytes.as_mut_slice());
    }
}
