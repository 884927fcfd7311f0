//! How far a recovery is.

/// How far a recovery is.
#[derive(Clone, Copy, Debug, PartialEq, Eq)]
pub enum Stage {
    /// Nothing was asked for yet.
    Begins,
    /// The gates are read.
    Gates,
    /// They are written back as they were read. So many are open, from gate 0 on.
    Settles(u32),
    /// They are settled. The bodies behind so many open gates are read, one after the other.
    Bodies(u32),
    /// The records were read, and their points told.
    Told,
    /// The blocks of the records are written home.
    Homes,
    /// Gate 0 is closed.
    Closes,
    /// The gates behind gate 0 are closed.
    Shuts,
    /// All gates are closed.
    Closed,
}
