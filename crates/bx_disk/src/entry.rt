//! The record of what was done to disks.

use crate::noise::Noise;
use bx_base::{OutOfMemory, Raw};
use std::alloc::Global;
use std::marker::Model;

/// Sizes of disks.
#[derive(Drop)]
pub struct Sizes {
    sizes: Vec<u64>,
}

impl Model for Sizes {
    ghost use Rattle.std.specs.Prelude.{ℕ, List};

    ghost Value = { List ℕ };

    ghost view = { λ sizes. sizes.sizes.items };
}

impl Sizes {
    ghost use Rattle.std.specs.Prelude.{◌≡◌, IfOk};

    /// A copy of the sizes.
    pub fn of(alloc: Global, sizes: &[u64]) -> Result<Sizes, OutOfMemory>
        ensures { IfOk result (λ copy. copy ≡ sizes.now) }
    {
        let sizes = Vec::from_slice(alloc, sizes)?;
        Ok(Sizes { sizes })
    }
}

/// One thing that was done.
#[derive(Drop)]
pub enum Entry {
    /// These bytes were written to a disk, from a sector on.
    Wrote(u32, u64, Raw),
    /// A disk was synced.
    Synced(u32),
    /// The disks were made anew.
    Shaped(Sizes),
    /// A disk crashed.
    Crashed(u32, Noise),
    /// All sectors of a disk were made zero and sure.
    Blanked(u32),
}
