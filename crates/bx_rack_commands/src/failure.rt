//! Why a command on a rack stops short.

use bx_overlay::AuditError;
use thiserror::Error;

/// Why a rack is refused.
#[derive(Clone, Copy, PartialEq, Eq, Debug, Error)]
pub enum Refusal {
    /// The disk with this number has no label of the volume, though it is that of a member that counts; 0 where no disk has a label.
    #[error("disk {0}")]
    Disk(u32),
    /// Fewer than two replicas are labelled and have a cell that can be read.
    #[error("majority")]
    Majority,
    /// The rack has no disk for the member of this device that reads go to.
    #[error("device {0}")]
    Device(u32),
    /// The block with this number is wrong; 65536 stands for a record that is none.
    #[error("block {0}")]
    Block(u64),
}

/// Why a command on a rack stops short of its end.
#[derive(Clone, Copy, PartialEq, Eq, Debug, Error)]
pub enum Failure {
    /// The output failed.
    #[error("write fault")]
    WriteFault,
    /// A disk failed.
    #[error("disk fault")]
    DiskFault,
    /// What the disks hold is no volume.
    #[error("volume refused: {0}")]
    Refused(Refusal),
    /// Memory ran out.
    #[error("out of memory")]
    OutOfMemory,
}

impl From<AuditError> for Failure {
    ghost use Rattle.bx_rack_commands.specs.Failures.{failure_of};
    ghost use Rattle.std.specs.Prelude.{◌≡◌};

    ghost from_gives = { λ error failure. failure ≡ failure_of error };

    fn from(error: AuditError) -> Failure {
        match error {
            AuditError::DiskFault => Failure::DiskFault,
            AuditError::NoLabel(disk) => Failure::Refused(Refusal::Disk(disk)),
            AuditError::NoMajority => Failure::Refused(Refusal::Majority),
            AuditError::NoSource(device) => Failure::Refused(Refusal::Device(device)),
            AuditError::Torn(block, _, _) => Failure::Refused(Refusal::Block(block)),
            AuditError::OutOfMemory => Failure::OutOfMemory,
        }
    }
}
