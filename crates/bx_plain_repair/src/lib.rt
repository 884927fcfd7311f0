//! What a recovery does on the disks of a volume of one device and one area after its node stopped: the gates of its log are settled, the calls of
//! open records are told, their blocks are written home, and the log is closed.
#![tactic(auto)]

mod closing;
mod gates;
mod homes;
mod reading;
mod recovery;
mod repair;
mod through;

pub use recovery::Recovery;
pub use repair::recover;
