//! What every layer speaks of: bytes, lists of numbers, machines, calls and their points; and fields of bytes, one after
//! the other: numbers with their highest byte first, and bytes of a known length. What is read from the front leaves the
//! bytes behind it, and what is written at a place tells the place behind it.
#![tactic(auto)]

mod error;
mod field_laws;
mod laws;
mod list;
mod memory;
mod names;
mod raw;
mod reading;
mod writing;

pub use error::ReadError;
pub use field_laws::writes_are_whole;
pub use laws::machines_are_in_order;
pub use list::{List, Numbers, Points, Words};
pub use memory::OutOfMemory;
pub use names::{Actor, CallNo, Mode, Point};
pub use raw::Raw;
pub use reading::{all_of, are_zeros, before_zeros, front_at, u16_at, u32_at, u64_at};
pub use writing::{clear_from, push, push_u32, push_u64, put, put_u16, put_u32, put_u64};
