//! What nodes and members of mirrored devices say to one another, as values, and the bytes of each.
#![tactic(auto)]

mod bodies;
mod laws;
mod message;
mod parting;
mod parts;
mod reading;
mod runs;
mod sending;
mod writing;

pub use laws::{one_message, written_reads};
pub use message::{CopiedBody, CopyBody, DataBody, DeviceMessage, ReadBody, WriteBody, WroteBody};
pub use parting::{WriteHead, send_write};
pub use sending::send;
