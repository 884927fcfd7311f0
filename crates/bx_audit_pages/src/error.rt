//! Why there is no file tree, or why it wasn't read.

ghost use Rattle.std.specs.Prelude.{◌≡◌};
ghost use Rattle.bx_audit_pages.specs.Errors.{of_rack};
ghost use Rattle.bx_audit_pages.specs.declared.error.AuditError.TheVariants.{OutOfMemory as MemoryRanOut};

use bx_disk::RackError;
use std::alloc::AllocFailed;
use thiserror::Error;

/// Why there is no file tree, or why it wasn't read.
#[derive(Clone, Copy, PartialEq, Eq, Debug, Error)]
pub enum AuditError {
    /// The blocks stand for no file tree. The numbers are that of a block, of the handle that its header names, and of the handle
    /// by which the block was named, 0 where nothing names it.
    #[error("block {0} is torn: it has the handle {1}, and {2} is wanted")]
    Torn(u64, u64, u64),
    /// A disk failed, and the count of faults rose.
    #[error("disk fault")]
    Fault,
    /// Memory ran out.
    #[error("out of memory")]
    OutOfMemory,
}

impl From<RackError> for AuditError {
    ghost from_gives = { λ error made. made ≡ of_rack error };

    fn from(error: RackError) -> AuditError {
        match error {
            RackError::Fault => AuditError::Fault,
            RackError::OutOfMemory => AuditError::OutOfMemory,
        }
    }
}

impl From<bx_base::OutOfMemory> for AuditError {
    ghost from_gives = { λ _ error. error ≡ MemoryRanOut };

    fn from(_error: bx_base::OutOfMemory) -> AuditError {
        AuditError::OutOfMemory
    }
}

impl<T: Drop> From<AllocFailed<T>> for AuditError {
    ghost from_gives = { λ _ error. error ≡ MemoryRanOut };

    fn from(_error: AllocFailed<T>) -> AuditError {
        AuditError::OutOfMemory
    }
}
