//! How the cell of a replica came to be.

/// How the cell of a replica came to be.
#[derive(Clone, Copy, PartialEq, Eq)]
pub enum Origin {
    /// It was made with the volume, for its first state.
    Made,
    /// It was found with the volume, under this number. As long as it stands so, the replica knows the first state, keeps its promise, and
    /// has accepted nothing. Under a lower number it isn't the cell that was found, and the replica takes no part.
    Found(u64),
    /// The replica takes no part, whatever its disk has.
    Apart,
}
