//! What the logs lay over the homes of a volume, read off any rack from its labels on: with the homes the truth. Each function answers
//! what the definitions of a volume say, both ways.
#![tactic(auto)]

mod error;
mod laws;
mod overlaid;
mod volume_disks;

pub use error::AuditError;
pub use laws::{refused_disks_show_no_tree, what_is_read_is_shown, what_stands_is_the_truth};
pub use overlaid::Overlaid;
pub use volume_disks::{VolumeDisks, read_disks};
