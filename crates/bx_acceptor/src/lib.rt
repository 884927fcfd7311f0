//! The acceptor of a replica: what it promises and accepts stands in a cell on its disk before it is answered.
#![tactic(auto)]

mod acceptor;
mod hearing;
mod origin;
mod saving;
mod serving;
mod starting;

pub use acceptor::Acceptor;
pub use origin::Origin;
pub use starting::first_value;
