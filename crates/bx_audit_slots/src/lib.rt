//! The slots of a volume, read off the own blocks of its areas: which are in use, under which handles, and which of them are marked.
#![tactic(auto)]

mod own_blocks;
mod slots;
mod told;

pub use own_blocks::{OwnBlock, read_own_blocks};
pub use slots::{UsedSlot, used_slots};
pub use told::told_of;
