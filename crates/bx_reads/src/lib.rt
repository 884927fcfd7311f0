//! The procedures that change nothing, over views.
#![tactic(auto)]

mod attributes;
mod bytes;
mod files;
mod links;
mod shown;
mod space;

pub use attributes::getattr;
pub use bx_files::{PIECE, content_key, needed, value_at};
pub use bytes::read;
pub use files::named_inode;
pub use links::readlink;
pub use shown::attributes_by;
pub use space::statfs;

/// What the crates above use of `bx_blink`.
pub mod blink {
    pub use bx_files::blink::BlinkError;
}

/// What the crates above use of `bx_chunks`.
pub mod chunks {
    pub use bx_files::chunks::ChunkError;
}

/// What the crates above use of `bx_inodes`.
pub mod inodes {
    pub use bx_files::inodes::{Stop, head_of, inode_at, put_inode};
}
