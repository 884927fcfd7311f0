//! Events, and why one is refused.

ghost use Rattle.std.specs.Prelude.{◌≡◌};
ghost use Rattle.bx_world_events.specs.Events.{machine_of, needs_down, number_of, reading_of};

use bx_base::{Actor, OutOfMemory};
use thiserror::Error;

/// What happens to a cluster, at one of its machines.
#[derive(Clone, Copy)]
pub enum Event<'a> {
    /// A datagram arrives at a node.
    Call {
        /// The node's clock, in milliseconds.
        reading: u64,
        /// The node.
        node: u32,
        /// The client that sent it.
        client: u32,
        /// Its bytes.
        bytes: &'a [u8],
    },
    /// A machine's clock ticks.
    Tick {
        /// The clock, in milliseconds.
        reading: u64,
        /// The machine.
        at: Actor,
    },
    /// A packet arrives, again or for the first time.
    Deliver {
        /// The receiver's clock, in milliseconds.
        reading: u64,
        /// The packet's number.
        number: u64,
    },
    /// A machine's disk finishes a sync.
    Sync {
        /// The machine.
        at: Actor,
    },
    /// A machine stops.
    Crash {
        /// The machine.
        at: Actor,
    },
    /// A machine starts again.
    Restart {
        /// Its clock, in milliseconds.
        reading: u64,
        /// The machine.
        at: Actor,
    },
    /// The disk of a machine is replaced by a blank one.
    Blank {
        /// The machine.
        at: Actor,
    },
}

impl Event<'_> {
    /// The machine that it names; `None` exactly where it names a packet.
    pub fn machine(&self) -> Option<Actor>
        ensures { result ≡ machine_of self.now }
    {
        match self {
            Event::Call { node, .. } => Some(Actor::Node(*node)),
            Event::Tick { at, .. }
            | Event::Sync { at }
            | Event::Crash { at }
            | Event::Restart { at, .. }
            | Event::Blank { at } => Some(*at),
            Event::Deliver { .. } => None,
        }
    }

    /// The clock's reading, in milliseconds; `None` exactly where it has none.
    pub fn reading(&self) -> Option<u64>
        ensures { result ≡ reading_of self.now }
    {
        match self {
            Event::Call { reading, .. }
            | Event::Tick { reading, .. }
            | Event::Deliver { reading, .. }
            | Event::Restart { reading, .. } => Some(*reading),
            Event::Sync { .. } | Event::Crash { .. } | Event::Blank { .. } => None,
        }
    }

    /// The number of the packet that it names; `None` exactly where it names a machine.
    pub fn number(&self) -> Option<u64>
        ensures { result ≡ number_of self.now }
    {
        match self {
            Event::Deliver { number, .. } => Some(*number),
            _ => None,
        }
    }

    /// The machine that has to be down for it; `None` exactly where none has to.
    pub(crate) fn sleeper(&self) -> Option<Actor>
        ensures { result ≡ needs_down self.now }
    {
        match self {
            Event::Restart { at, .. } | Event::Blank { at } => Some(*at),
            _ => None,
        }
    }
}

/// Why an event isn't done.
#[derive(Clone, Copy, PartialEq, Eq, Debug, Error)]
pub enum EventError {
    /// It names a machine that the cluster hasn't got.
    #[error("no such machine")]
    NoSuchMachine,
    /// Its reading lies so many milliseconds further behind the greatest one than clocks may differ. That is at least 1.
    #[error("clock back by {0}")]
    ClockBack(u64),
    /// No packet has this number.
    #[error("no such packet {0}")]
    NoSuchPacket(u64),
    /// The machine is up.
    #[error("up")]
    Up,
    /// The machine is down.
    #[error("down")]
    Down,
    /// The machine has no disk with a write that waits.
    #[error("nothing to sync")]
    NothingToSync,
    /// The disk is still needed.
    #[error("still needed")]
    StillNeeded,
    /// Memory ran out.
    #[error("out of memory")]
    OutOfMemory,
}

impl From<OutOfMemory> for EventError {
    ghost use Rattle.bx_world_events.specs.declared.event.EventError.TheVariants.{OutOfMemory as MemoryRanOut};

    ghost from_gives = { λ _ error. error ≡ MemoryRanOut };

    fn from(_error: OutOfMemory) -> EventError {
        EventError::OutOfMemory
    }
}
