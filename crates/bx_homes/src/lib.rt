//! Reading a volume off its disks: labels, the gates of logs, blocks in their homes, and whether slots are right. Each function answers what the definitions
//! of a volume say, both ways, over any rack.
#![tactic(auto)]

mod blocks;
mod gates;
mod homes;
mod labels;
mod slots;
mod sources;

pub use blocks::Blocks;
pub use gates::open_gates;
pub use homes::{member_disk, read_block, read_home};
pub use labels::{first_label, is_labelled};
pub use slots::{WrongBlock, first_fault};
pub use sources::{first_absent, first_unlabelled};

/// What the crates above use of `bx_volume`.
pub mod volume {
    pub use bx_volume::{one_first_label, one_tree_stands};
}
