//! What the programs of cases share: a row of a file of cases, bytes as a row spells them, and an answer that is told piece by piece.
#![tactic(auto)]

mod files;
mod line;
mod row;
mod spelled;

pub use files::run_files;
pub use line::Line;
pub use row::Row;
pub use spelled::bytes_of;
