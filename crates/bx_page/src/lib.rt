//! A page of a B-link tree (Lehman and Yao 1981, Sagiv 1986): a level, a link to the page on its right, a high key and
//! entries in the order of their keys, in 4096 bytes.
#![tactic(auto)]

mod checks;
mod entry;
mod error;
mod laws;
mod page;
mod places;
mod reading;
mod writing;

pub use entry::Entry;
pub use error::PageError;
pub use laws::{
    full_pages_have_entries, halves_are_linked, halves_are_the_page, is_a_map, one_reading,
    room_for_two, written_reads,
};
pub use page::Page;
