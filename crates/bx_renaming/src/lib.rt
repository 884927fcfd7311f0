//! Files that move between directories, over views: RENAME.
#![tactic(auto)]

mod coming;
mod finding;
mod onto;
mod places;
mod renaming;
mod testing;

pub use bx_linking::link;
pub use finding::{moved_for, other_for};
pub use places::{Names, Places, places_for};
pub use renaming::rename;
