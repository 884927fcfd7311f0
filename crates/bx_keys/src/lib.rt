//! The keys and values of a directory's tree as bytes: written, and read.
#![tactic(auto)]

mod keys;

pub use keys::{
    handle_in, key_by_name, key_by_number, name_in, number_behind, number_of, place_in,
    value_by_name, value_by_number,
};
