//! The procedures that change nothing, on a file tree; and what others take of them: the file that a file handle names, and
//! the replies that tell of a file.
#![tactic(auto)]

mod directories;
mod reading;

pub use directories::readdir;
pub use reading::{
    attributes_reply, getattr, handle_reply, lookup, mount, named, plain, read, readlink, statfs,
};
