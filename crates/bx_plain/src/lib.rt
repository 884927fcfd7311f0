//! The register, the owners and the store of a cluster on one machine, which send no packets.
#![tactic(auto)]

mod asks;
mod begin;
mod busy;
mod owners;
mod register;
mod rows;
mod table;

pub use begin::endless;
pub use owners::PlainOwners;
pub use register::PlainRegister;
