//! What comes to a machine, and why a call of a trait stops short.

ghost use Rattle.std.specs.Prelude.{◌≡◌};

use bx_calls::disk::{DiskFault, RackError};
use bx_post::Packet;
use bx_records::base::OutOfMemory;
use thiserror::Error;

/// What comes to a machine in one event.
#[derive(Drop)]
pub enum Input<'a> {
    /// A packet, and the clock's reading in milliseconds.
    Packet(&'a Packet, u64),
    /// The clock's reading in milliseconds.
    Tick(u64),
    /// Its disk has finished a sync.
    Synced,
}

/// Why an input wasn't taken.
#[derive(Clone, Copy, PartialEq, Eq, Debug, Error)]
pub enum FactError {
    /// A disk failed.
    #[error("disk fault")]
    Disk,
    /// Memory ran out.
    #[error("out of memory")]
    OutOfMemory,
}

/// Why disks weren't opened.
#[derive(Clone, Copy, PartialEq, Eq, Debug, Error)]
pub enum OpenError {
    /// A disk failed.
    #[error("disk fault")]
    Disk,
    /// A disk that is needed has no label.
    #[error("disk {0} has no label")]
    NoLabel(u32),
    /// Fewer than two replicas can be read.
    #[error("no majority")]
    NoMajority,
    /// Memory ran out.
    #[error("out of memory")]
    OutOfMemory,
    /// No boot is left above this one.
    #[error("no boot is left above {0}")]
    Spent(u64),
}

/// Why a change isn't proposed.
#[derive(Clone, Copy, PartialEq, Eq, Debug, Error)]
pub enum ProposeError {
    /// It isn't legal.
    #[error("not legal")]
    NotLegal,
    /// Another of this machine is out.
    #[error("another is out")]
    Busy,
    /// Memory ran out.
    #[error("out of memory")]
    OutOfMemory,
}

impl From<OutOfMemory> for FactError {
    ghost use Rattle.bx_facts.specs.declared.input.FactError.TheVariants.{OutOfMemory as MemoryRanOut};

    ghost from_gives = { λ _ error. error ≡ MemoryRanOut };

    fn from(_error: OutOfMemory) -> FactError {
        FactError::OutOfMemory
    }
}

impl From<OutOfMemory> for ProposeError {
    ghost use Rattle.bx_facts.specs.declared.input.ProposeError.TheVariants.{OutOfMemory as NoMemory};

    ghost from_gives = { λ _ error. error ≡ NoMemory };

    fn from(_error: OutOfMemory) -> ProposeError {
        ProposeError::OutOfMemory
    }
}

impl From<DiskFault> for FactError {
    ghost use Rattle.bx_facts.specs.declared.input.FactError.TheVariants.{Disk as DiskFails};

    ghost from_gives = { λ _ error. error ≡ DiskFails };

    fn from(_fault: DiskFault) -> FactError {
        FactError::Disk
    }
}

impl From<RackError> for FactError {
    ghost use Rattle.bx_facts.specs.Inputs.{fact_of};

    ghost from_gives = { λ fault error. error ≡ fact_of fault };

    fn from(fault: RackError) -> FactError {
        match fault {
            RackError::Fault => FactError::Disk,
            RackError::OutOfMemory => FactError::OutOfMemory,
        }
    }
}
