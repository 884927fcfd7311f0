//! Pages of B-link trees in their bytes: a page is checked and searched where it stands, and nothing of it is copied.
#![tactic(auto)]

mod entries;
mod page;
mod reading;
mod writing;

pub use entries::{Entries, EntryBytes};
pub use page::PageBytes;
