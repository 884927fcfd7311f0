//! Files as lists of bytes, over views.
#![tactic(auto)]

mod keys;
mod pieces;
mod reading;
mod searching;

pub use keys::content_key;
pub use pieces::PIECE;
pub use reading::{MOST_BYTES, read};
pub use searching::{needed, value_at};

/// What the crates above use of `bx_blink`.
pub mod blink {
    pub use bx_inodes::blink::BlinkError;
}

/// What the crates above use of `bx_chunks`.
pub mod chunks {
    pub use bx_chunks::{ChunkError, count_free};
}

/// What the crates above use of `bx_inodes`.
pub mod inodes {
    pub use bx_inodes::{Stop, head_of, inode_at, put_inode};
}
