//! What a log does, and what it asks for.

use bx_base::{Point, Raw};
use bx_records::Runs;

/// What a log does.
#[derive(Drop)]
pub enum Work {
    /// Nothing.
    Idle,
    /// The body of a record is written: its bytes, and the point of the call that it is of.
    Body(Raw, Point),
    /// The gate of the record of this point is opened; its body is acknowledged.
    Opens(Point),
    /// Gate 0 is closed.
    Closes,
    /// The gates behind gate 0, which is closed, are closed.
    Shuts,
}

/// What is asked for, or said. A log asks for no reads: a recovery of another's log does.
#[derive(Drop)]
pub enum Move {
    /// These runs are to be written.
    Write(Runs),
    /// Sectors are to be read: their device, the first of them on it, and how many they are.
    Read(u32, u64, u32),
    /// The record of this point is acknowledged: its gate is.
    Acked(Point),
    /// The log is closed: all its gates are, and that is acknowledged.
    Closed,
    /// What was asked for last is out, and is waited for.
    Wait,
}
