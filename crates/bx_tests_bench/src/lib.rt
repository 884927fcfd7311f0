//! What tests of logs share: a small store over both members of a device, blocks that are filled with a byte, the life of a log, what a
//! member says, and a recovery.
#![tactic(auto)]

mod bench;
mod drafts;
mod life;
mod looks;
mod racks;
mod recovery;

pub use bench::{is_bench, stores};
pub use drafts::{Bytes, draft_of, go_home};
pub use life::{Reached, acknowledges, lives, moves, point_of};
pub use looks::{gates, reads, sees};
pub use racks::{Ways, crash, formatted};
pub use recovery::recovers;
