//! NFS version 2 and MOUNT (RFC 1094) on the wire: calls and replies as bytes.
#![tactic(auto)]

mod arguments;
mod calls;
mod forms;
mod items;
mod laws;
mod replies;

pub use calls::reads_as;
pub use laws::{lengths, one_reading, own_arguments, tail_passed_over};
pub use replies::text;
