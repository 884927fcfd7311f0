//! Why a server stops.

use bx_base::OutOfMemory;
use bx_outside::{LinkError, WriteFault};
use thiserror::Error;

/// Why a server stops before its last turn.
#[derive(Clone, Copy, PartialEq, Eq, Debug, Error)]
pub enum HostError {
    /// Faults stopped both members of a device, or two replicas; or a disk failed while the volume was opened.
    #[error("disk fault")]
    Disk,
    /// The link failed.
    #[error("link fault")]
    Link,
    /// The output failed.
    #[error("write fault")]
    Write,
    /// A disk that the volume needs has no label.
    #[error("volume refused: disk {0}")]
    NoLabel(u32),
    /// Memory ran out.
    #[error("out of memory")]
    OutOfMemory,
    /// Fewer than two replicas have a label and a cell that can be read.
    #[error("volume refused: majority")]
    NoMajority,
    /// The volume has no numbers left for machines that start.
    #[error("volume refused: boot {0}")]
    Spent(u64),
}

impl From<OutOfMemory> for HostError {
    ghost use Rattle.std.specs.Prelude.{◌≡◌};
    ghost use Rattle.bx_host.specs.declared.error.HostError.TheVariants as errors;

    ghost from_gives = { λ _ error. error ≡ errors.OutOfMemory };

    fn from(_error: OutOfMemory) -> HostError {
        HostError::OutOfMemory
    }
}

impl From<WriteFault> for HostError {
    ghost use Rattle.std.specs.Prelude.{◌≡◌};
    ghost use Rattle.bx_host.specs.declared.error.HostError.TheVariants as errors;

    ghost from_gives = { λ _ error. error ≡ errors.Write };

    fn from(_fault: WriteFault) -> HostError {
        HostError::Write
    }
}

impl From<LinkError> for HostError {
    ghost use Rattle.std.specs.Prelude.{◌≡◌};
    ghost use Rattle.bx_host.specs.Errors.{error_of};

    ghost from_gives = { λ link error. error ≡ error_of link };

    fn from(error: LinkError) -> HostError {
        match error {
            LinkError::Fault => HostError::Link,
            LinkError::OutOfMemory => HostError::OutOfMemory,
        }
    }
}
