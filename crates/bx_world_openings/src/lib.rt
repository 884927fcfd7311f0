//! The cluster of a new volume: its disks made anew, and over them a world of machines that agree by three replicas, own blocks by lock servers, and mirror devices.
#![tactic(auto)]

mod begins;
mod opens;

pub use begins::begin_boxes;
pub use opens::BoxWorlds;
