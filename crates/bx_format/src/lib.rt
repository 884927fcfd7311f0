//! Volumes that are made: the blocks of a volume that was just made, and their writing on the disks of a rack.
#![tactic(auto)]

mod blocks;
mod homes;
mod labels;
mod laws;
mod shapes;
mod volumes;

pub use laws::what_is_formatted_is_at_rest;
pub use volumes::{format, label_disks, lay_out};
