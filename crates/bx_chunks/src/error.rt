//! Why a call on chunks isn't answered.

ghost use Rattle.std.specs.Prelude.{◌≡◌};
ghost use Rattle.bx_chunks.specs.declared.error.ChunkError.TheVariants.{OutOfMemory as MemoryRanOut};

use bx_base::Mode;
use thiserror::Error;

/// Why a call on chunks isn't answered. What it was to change is as it was.
#[derive(Clone, Copy, Debug, Error)]
pub enum ChunkError {
    /// The block with this number is to be held in this mode, and isn't.
    #[error("a block is needed")]
    Need(u64, Mode),
    /// The handle names no chunk.
    #[error("the handle names no chunk")]
    Stale,
    /// No slot is free; in the view this many are.
    #[error("no slot is free")]
    Full(u64),
    /// Memory ran out.
    #[error("out of memory")]
    OutOfMemory,
    /// The draft would have more than sixteen blocks.
    #[error("more than sixteen blocks")]
    Crowded,
}

impl From<bx_base::OutOfMemory> for ChunkError {
    ghost from_gives = { λ _ error. error ≡ MemoryRanOut };

    fn from(_error: bx_base::OutOfMemory) -> ChunkError {
        ChunkError::OutOfMemory
    }
}
