//! What a write makes of the members of a device: sectors and runs, each written where it isn't there yet.
#![tactic(auto)]

mod members;

pub use members::{has_bytes, put_both, put_run, put_sector, sync_both};
