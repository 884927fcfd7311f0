//! The audit of a volume: the file tree that its disks hold, read off them alone.
#![tactic(auto)]

mod audits;
mod blocks;
mod laws;
mod links;
mod listing;
mod walks;
mod words;

pub use audits::audit;
pub use laws::a_volume_is_listed;
pub use listing::Listing;
