//! Files that are made and that die, over views.
#![tactic(auto)]

mod burying;
mod links;
mod making;

pub use burying::bury;
pub use links::make_link;
pub use making::make;
