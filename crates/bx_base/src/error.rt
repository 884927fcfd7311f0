//! Why bytes weren't read.

ghost use Rattle.std.specs.Prelude.{◌≡◌};
ghost use Rattle.bx_base.specs.declared.error.ReadError.TheVariants.{OutOfMemory as MemoryRanOut};

use std::alloc::AllocFailed;
use thiserror::Error;

/// Why bytes weren't read as a value.
#[derive(Clone, Copy, PartialEq, Eq, Debug, Error)]
pub enum ReadError {
    /// The bytes are no such value.
    #[error("malformed bytes")]
    Malformed,
    /// Memory ran out.
    #[error("out of memory")]
    OutOfMemory,
}

impl From<crate::OutOfMemory> for ReadError {
    ghost from_gives = { λ _ error. error ≡ MemoryRanOut };

    fn from(_error: crate::OutOfMemory) -> ReadError {
        ReadError::OutOfMemory
    }
}

impl<T: Drop> From<AllocFailed<T>> for ReadError {
    ghost from_gives = { λ _ error. error ≡ MemoryRanOut };

    fn from(_error: AllocFailed<T>) -> ReadError {
        ReadError::OutOfMemory
    }
}
