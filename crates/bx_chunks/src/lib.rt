//! Chunks over views: blocks by their handles, slots that are taken and freed, and how many are free; and the parts of that by which
//! marks of slots are set.
#![tactic(auto)]

mod allocating;
mod areas;
mod counting;
mod error;
mod freeing;
mod laws;
mod putting;
mod reading;
mod taking;

pub use allocating::allocate;
pub use areas::{own_block, slots_of};
pub use counting::count_free;
pub use error::ChunkError;
pub use freeing::{free, slots_of_given};
pub use laws::calls_have_one_answer;
pub use putting::{copy_of, put_area};
pub use reading::{read, read_over};
