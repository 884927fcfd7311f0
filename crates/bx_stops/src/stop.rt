//! Why a replay stops short.

use bx_base::OutOfMemory;
use bx_disk::RackError;
use bx_outside::{LineError, WriteFault};
use bx_overlay::AuditError;
use thiserror::Error;

/// Why a line of a schedule is refused.
#[derive(Clone, Copy, PartialEq, Eq, Debug, Error)]
pub enum Reason {
    /// It is outside the grammar, or not in its place.
    #[error("grammar")]
    Grammar,
    /// It names a machine that the cluster hasn't got.
    #[error("no such machine")]
    NoMachine,
    /// Its reading lies so many milliseconds further behind an earlier one than clocks may differ. That is at least 1.
    #[error("clock back by {0}")]
    ClockBack(u64),
    /// The packet that is to arrive isn't there: none has this number.
    #[error("no such packet {0}")]
    NoPacket(u64),
    /// A machine has to be down for it, and is up.
    #[error("up")]
    Up,
    /// A machine has to be up for it, and is down.
    #[error("down")]
    Down,
    /// The machine's disk has no write that waits for a sync.
    #[error("nothing to sync")]
    NothingToSync,
    /// The machine's disk isn't one that its device does without.
    #[error("still needed")]
    StillNeeded,
}

/// Why a replay stops short of its end.
#[derive(Clone, Copy, PartialEq, Eq, Debug, Error)]
pub enum Stop {
    /// A line of the schedule is refused. Lines count from 1.
    #[error("schedule line {0}: {1}")]
    Refused(u64, Reason),
    /// The input failed.
    #[error("read fault")]
    ReadFault,
    /// The output failed.
    #[error("write fault")]
    WriteFault,
    /// The bench failed while it was shaped and formatted, or while the tree was read back from it; or it doesn't hold what was
    /// written, which no bench does that tells what it holds.
    #[error("disk fault")]
    DiskFault,
    /// Memory ran out.
    #[error("out of memory")]
    OutOfMemory,
}

impl From<OutOfMemory> for Stop {
    ghost use Rattle.std.specs.Prelude.{◌≡◌};
    ghost use Rattle.bx_stops.specs.declared.stop.Stop.TheVariants as stops;

    ghost from_gives = { λ _ stop. stop ≡ stops.OutOfMemory };

    fn from(_error: OutOfMemory) -> Stop {
        Stop::OutOfMemory
    }
}

impl From<WriteFault> for Stop {
    ghost use Rattle.std.specs.Prelude.{◌≡◌};
    ghost use Rattle.bx_stops.specs.declared.stop.Stop.TheVariants as stops;

    ghost from_gives = { λ _ stop. stop ≡ stops.WriteFault };

    fn from(_fault: WriteFault) -> Stop {
        Stop::WriteFault
    }
}

impl From<LineError> for Stop {
    ghost use Rattle.bx_stops.specs.FromLine.{stop_of};
    ghost use Rattle.std.specs.Prelude.{◌≡◌};

    ghost from_gives = { λ error stop. stop ≡ stop_of error };

    fn from(error: LineError) -> Stop {
        match error {
            LineError::Fault => Stop::ReadFault,
            LineError::OutOfMemory => Stop::OutOfMemory,
        }
    }
}

impl From<RackError> for Stop {
    ghost use Rattle.bx_stops.specs.FromLine.{stop_of_rack};
    ghost use Rattle.std.specs.Prelude.{◌≡◌};

    ghost from_gives = { λ error stop. stop ≡ stop_of_rack error };

    fn from(error: RackError) -> Stop {
        match error {
            RackError::Fault => Stop::DiskFault,
            RackError::OutOfMemory => Stop::OutOfMemory,
        }
    }
}

impl From<AuditError> for Stop {
    ghost use Rattle.bx_stops.specs.FromLine.{stop_of_audit};
    ghost use Rattle.std.specs.Prelude.{◌≡◌};

    ghost from_gives = { λ error stop. stop ≡ stop_of_audit error };

    fn from(error: AuditError) -> Stop {
        match error {
            AuditError::OutOfMemory => Stop::OutOfMemory,
            AuditError::DiskFault
            | AuditError::NoLabel(_)
            | AuditError::NoMajority
            | AuditError::NoSource(_)
            | AuditError::Torn(_, _, _) => Stop::DiskFault,
        }
    }
}
