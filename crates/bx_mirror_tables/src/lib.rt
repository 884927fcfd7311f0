//! What a member of a mirrored device keeps in tables: the last sequence of each session, and the answers that wait for a sync; and which runs lie within it.
#![tactic(auto)]

mod answers;
mod inside;
mod lasts;
mod laws;

pub use answers::{Answer, Owing, is_owed, owe, send_all, send_answer};
pub use inside::are_inside;
pub use lasts::{Last, last_of, noted};
pub use laws::noted_is_last;
