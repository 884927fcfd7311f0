//! The calls of a rack, with what each keeps of what it doesn't write. Layers above use these in place of the rack's own.
#![tactic(auto)]

mod calls;
mod zero;

pub use calls::{read_sectors, sync_disk, write_some, write_through};
pub use zero::zero_sectors;

/// What the crates above use of `bx_disk`.
pub mod disk {
    pub use bx_disk::{DiskFault, Rack, RackError};
}
