//! What the layers above use of the machines below: a register, owners of blocks, and a store. Three traits, each with one contract, which the forms on
//! one machine and the protocol both meet; and the words for these.
#![tactic(auto)]

mod input;
mod owners;
mod register;
mod store;

pub use bx_post::{Letter, Outbox, Packet, Post};
pub use input::{FactError, Input, OpenError, ProposeError};
pub use owners::Owners;
pub use register::Register;
pub use store::Store;
