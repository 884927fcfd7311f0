//! RPC messages (RFC 5531): calls up to their arguments, and replies up to their results.
#![tactic(auto)]

mod caller;
mod checks;
mod laws;
mod numbers;
mod opened;
mod replies;
mod stop;

pub use laws::{messages, one_opening, passes, refusals};
pub use numbers::{MOUNT_PROGRAM, MOUNT_VERSION, NFS_PROGRAM, NFS_VERSION, NOBODY};
pub use opened::{Opened, is_message, opens};
pub use replies::{accepted, refused};
