//! The audit of a rack alone: in the state that the cells of its replicas tell.
#![tactic(auto)]

mod audits;
mod laws;
mod states;

pub use audits::audit;
pub use laws::{first_labels_agree, labels_agree, one_own_state};
