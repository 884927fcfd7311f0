//! Items of XDR (RFC 4506) as bytes: words, and opaque data of fixed and of variable length.
#![tactic(auto)]

mod laws;
mod padding;
mod reader;
mod writer;

pub use laws::{one_reading, written_reads};
pub use reader::Reader;
pub use writer::Writer;

/// What the crates above use of `bx_base`.
pub mod base {
    pub use bx_base::{OutOfMemory, Raw, Words};
}
