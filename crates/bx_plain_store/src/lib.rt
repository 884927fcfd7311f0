//! A store on one machine: it holds writes and reads of nodes until members' syncs, which serve the writes on both members of each device and answer the reads.
#![tactic(auto)]

mod greatest;
mod inquiries;
mod parts;
mod reads;
mod runs;
mod sessions;
mod store;
mod syncs;
mod waiting;
mod writes;

pub use inquiries::Inquiry;
pub use reads::Ask;
pub use store::PlainStore;
pub use writes::{Write, serve};
