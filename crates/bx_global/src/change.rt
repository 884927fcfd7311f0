//! Changes of the state.

/// A change of the state. Readings are of a clock, in milliseconds.
#[derive(Clone, Copy, PartialEq, Eq)]
pub enum Change {
    /// The master prolongs its term.
    Renew {
        /// The lock server that is master.
        by: u32,
        /// Its boot.
        boot: u64,
        /// Its clock.
        reading: u64,
    },
    /// A lock server becomes master once the term has ended. All sessions are dead then.
    Take {
        /// The lock server, below 2.
        by: u32,
        /// Its boot.
        boot: u64,
        /// Its clock.
        reading: u64,
    },
    /// A node opens a session.
    Open {
        /// The node, below 4.
        node: u32,
        /// Its boot.
        boot: u64,
        /// The node's clock.
        reading: u64,
    },
    /// A session dies once it has ended.
    Expire {
        /// The session.
        session: u64,
        /// The term.
        term: u64,
        /// The master's clock.
        reading: u64,
    },
    /// A live session takes on the recovery of a dead one.
    Claim {
        /// The dead session.
        dead: u64,
        /// The live session.
        by: u64,
    },
    /// A dead session goes once it is recovered.
    Close {
        /// The dead session.
        dead: u64,
        /// The session that recovered it.
        by: u64,
    },
    /// A device gets another mode.
    Shift {
        /// The device's place, from 0 on.
        device: u32,
        /// Its epoch so far.
        epoch: u64,
        /// The new mode.
        mode: u32,
        /// Whether the boot is member B's, else member A's.
        second: bool,
        /// The boot of that member.
        boot: u64,
    },
}
