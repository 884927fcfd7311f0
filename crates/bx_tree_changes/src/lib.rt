//! The procedures that change a file of a tree, or the entries that name it: SETATTR, WRITE, LINK, REMOVE and RMDIR; and
//! what others take of them.
#![tactic(auto)]

mod linking;
mod places;
mod removing;
mod writing;

pub use linking::link;
pub use places::{directory_for, entry_error, entry_of, has_entries};
pub use removing::{remove, rmdir, unlink};
pub use writing::{edit_and_tell, setattr, write};
