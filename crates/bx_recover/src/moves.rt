//! What a recovery asks for, or tells.

use bx_base::Points;
use bx_records::Runs;

/// What a recovery asks for, or tells.
#[derive(Drop)]
pub enum Move {
    /// These runs are to be written.
    Write(Runs),
    /// Sectors are to be read: their device, the first of them on it, and how many they are.
    Read(u32, u64, u32),
    /// The records of these points are acknowledged, the oldest first: their gates are open, and stay so.
    Acked(Points),
    /// The log is closed: all its gates are, and that is acknowledged.
    Closed,
    /// What was asked for last is out, and is waited for.
    Wait,
}
