//! The sizes of regular files, set over views.
#![tactic(auto)]

mod clearing;
mod cuts;
mod first_pieces;
mod setting;
mod sizes;

pub use clearing::{clear, piece_held};
pub use setting::setattr;
pub use sizes::{grows_over, set_size, size_error};
