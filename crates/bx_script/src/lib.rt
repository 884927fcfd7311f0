//! The lines of a schedule and of a trace, each a value with one spelling.
#![tactic(auto)]

mod field;
mod line;
mod names;
mod reading;
mod text;
mod trace_line;

pub use line::{Line, MAX_DATAGRAM, MAX_LINE, MAX_LINES, MAX_READING, MAX_RUN, one_spelling};
pub use trace_line::{TraceLine, one_trace};
