//! A value on a disk that is the old or the new one after any crash.
#![tactic(auto)]

mod anew;
mod cell;
mod error;
mod halves;
mod laws;
mod steps;
mod values;

pub use anew::{format, format_each};
pub use cell::Cell;
pub use error::CellError;
pub use laws::{
    cells_are_halves, cells_are_their_sectors, halves_are_read, images_have_what_is_sure,
    one_value, others_leave_cells,
};
pub use values::{CellValue, read_cell};
