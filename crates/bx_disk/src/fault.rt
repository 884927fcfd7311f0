//! How a call of a rack fails.

use bx_base::OutOfMemory;
use thiserror::Error;

/// A disk failed, and the rack's counts of faults rose.
#[derive(Clone, Copy, PartialEq, Eq, Debug, Error)]
#[error("disk fault")]
pub struct DiskFault;

/// How a call that takes memory fails.
#[derive(Clone, Copy, PartialEq, Eq, Debug, Error)]
pub enum RackError {
    /// A disk failed, and the rack's counts of faults rose.
    #[error("disk fault")]
    Fault,
    /// Memory ran out.
    #[error("out of memory")]
    OutOfMemory,
}

impl From<DiskFault> for RackError {
    ghost use Rattle.std.specs.Prelude.{◌≡◌};
    ghost use Rattle.bx_disk.specs.declared.fault.RackError.TheVariants.{Fault};

    ghost from_gives = { λ _ e. e ≡ Fault };

    fn from(_fault: DiskFault) -> RackError {
        RackError::Fault
    }
}

impl From<OutOfMemory> for RackError {
    ghost use Rattle.std.specs.Prelude.{◌≡◌};
    ghost use Rattle.bx_disk.specs.declared.fault.RackError.TheVariants.{OutOfMemory};

    ghost from_gives = { λ _ e. e ≡ OutOfMemory };

    fn from(_error: OutOfMemory) -> RackError {
        RackError::OutOfMemory
    }
}
