//! Racks of disks, which may crash at any moment: what a call of one does.
#![tactic(auto)]

mod crash_rack;
mod entry;
mod fault;
mod noise;
mod rack;

pub use crash_rack::CrashRack;
pub use entry::{Entry, Sizes};
pub use fault::{DiskFault, RackError};
pub use noise::Noise;
pub use rack::Rack;
