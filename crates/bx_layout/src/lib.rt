//! What is on the disks of a volume: labels, gates, blocks, and what the payloads of blocks are, areas and inodes; each a
//! value with one spelling.
#![tactic(auto)]

mod area;
mod block;
mod gate;
mod inode;
mod label;
mod parts;
mod readings;
mod slots;
mod words;

pub use area::AreaBlock;
pub use block::Block;
pub use gate::Gate;
pub use inode::Inode;
pub use label::Label;
pub use readings::{one_reading, own_blocks, taken_slots, written_reads};

/// What the crates above use of `bx_base`.
pub mod base {
    pub use bx_base::{
        Actor, List, Mode, Numbers, OutOfMemory, Raw, ReadError, before_zeros, clear_from, put_u32,
        put_u64, u32_at, u64_at,
    };
}

/// What the crates above use of `bx_places`.
pub mod places {
    pub use bx_places::{MOST_AREAS, MOST_BLOCKS, SECTOR, is_block};
}
