//! Why a cell isn't opened or written.

ghost use Rattle.std.specs.Prelude.{◌≡◌};
ghost use Rattle.bx_cell.specs.declared.error.CellError.TheVariants.{DiskFault as Fails, OutOfMemory as MemoryRanOut};
ghost use Rattle.bx_cell.specs.Errors.{error_of};

use bx_base::OutOfMemory;
use bx_disk::{DiskFault, RackError};
use thiserror::Error;

/// Why a cell isn't opened or written.
#[derive(Clone, Copy, PartialEq, Eq, Debug, Error)]
pub enum CellError {
    /// A disk failed, and the rack's counts of faults rose.
    #[error("disk fault")]
    DiskFault,
    /// Neither half has an open gate and a length of at most 4096.
    #[error("no cell")]
    NoCell,
    /// Memory ran out.
    #[error("out of memory")]
    OutOfMemory,
}

impl From<DiskFault> for CellError {
    ghost from_gives = { λ _ error. error ≡ Fails };

    fn from(_fault: DiskFault) -> CellError {
        CellError::DiskFault
    }
}

impl From<RackError> for CellError {
    ghost from_gives = { λ fault error. error ≡ error_of fault };

    fn from(fault: RackError) -> CellError {
        match fault {
            RackError::Fault => CellError::DiskFault,
            RackError::OutOfMemory => CellError::OutOfMemory,
        }
    }
}

impl From<OutOfMemory> for CellError {
    ghost from_gives = { λ _ error. error ≡ MemoryRanOut };

    fn from(_error: OutOfMemory) -> CellError {
        CellError::OutOfMemory
    }
}
