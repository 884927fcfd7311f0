//! Why an audit refuses a rack.

use bx_base::OutOfMemory;
use bx_disk::{DiskFault, RackError};
use thiserror::Error;

/// Why an audit refuses a rack, or breaks off.
#[derive(Clone, Copy, PartialEq, Eq, Debug, Error)]
pub enum AuditError {
    /// A disk failed, and the rack's counts of faults rose.
    #[error("disk fault")]
    DiskFault,
    /// The disk with this number has no label of the volume, though a member that counts is on it; 0 where no disk has a label.
    #[error("a disk without a label")]
    NoLabel(u32),
    /// No state of this volume is told.
    #[error("no majority")]
    NoMajority,
    /// The rack has no disk for the member of this device that reads go to.
    #[error("a device without a source")]
    NoSource(u32),
    /// The number of a block that is wrong, the handle in its header, and the handle that names it, or 0 where nothing does. 65536
    /// stands for what is no block's: a record that is none.
    #[error("a block is wrong")]
    Torn(u64, u64, u64),
    /// Memory ran out.
    #[error("out of memory")]
    OutOfMemory,
}

impl From<DiskFault> for AuditError {
    ghost use Rattle.std.specs.Prelude.{◌≡◌};
    ghost use Rattle.bx_overlay.specs.declared.error.AuditError.TheVariants.{DiskFault as Failed};

    ghost from_gives = { λ _ e. e ≡ Failed };

    fn from(_fault: DiskFault) -> AuditError {
        AuditError::DiskFault
    }
}

impl From<OutOfMemory> for AuditError {
    ghost use Rattle.std.specs.Prelude.{◌≡◌};
    ghost use Rattle.bx_overlay.specs.declared.error.AuditError.TheVariants.{OutOfMemory as MemoryRanOut};

    ghost from_gives = { λ _ e. e ≡ MemoryRanOut };

    fn from(_error: OutOfMemory) -> AuditError {
        AuditError::OutOfMemory
    }
}

impl From<RackError> for AuditError {
    ghost use Rattle.bx_overlay.specs.Refusals.{audit_error};
    ghost use Rattle.std.specs.Prelude.{◌≡◌};

    ghost from_gives = { λ error e. e ≡ audit_error error };

    fn from(error: RackError) -> AuditError {
        match error {
            RackError::Fault => AuditError::DiskFault,
            RackError::OutOfMemory => AuditError::OutOfMemory,
        }
    }
}
