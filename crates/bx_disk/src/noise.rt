//! What a crash makes of unsure sectors.

/// What unsure sectors hold after a crash.
#[derive(Clone, Copy, PartialEq, Eq)]
pub enum Noise {
    /// What they read as.
    Keep,
    /// What they held at their last sync.
    Drop,
    /// The words of the generator with this seed.
    Seed(u64),
}
