//! What a call wants, changes and writes: the blocks that it holds, its draft, the header of its record, and runs of sectors.
#![tactic(auto)]

mod draft;
mod numbers;
mod readings;
mod record_head;
mod runs;
mod wants;

pub use bx_layout::Block;
pub use draft::{Draft, DraftError};
pub use readings::{one_reading, written_reads};
pub use record_head::RecordHead;
pub use runs::{Run, Runs};
pub use wants::Wants;

/// What the crates above use of `bx_base`.
pub mod base {
    pub use bx_layout::base::{Actor, Mode, OutOfMemory, Raw};
}
