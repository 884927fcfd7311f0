//! The file tree: what a call does to it, in definitions, and the types that they speak of.
#![tactic(auto)]

mod call;
mod entry;
mod permissions;
mod reply;
mod status;
mod tree;

pub use bx_tree_files::{
    Body, Content, DIRECTORY, File, Files, Handles, LINK, Name, NameList, Sattr, attributes,
    fileid, is_given,
};
pub use call::{Args, Call};
pub use entry::Entry;
pub use permissions::{Want, may};
pub use reply::{Listed, ListedList, Reply};
pub use status::{
    ACCES, DQUOT, EXIST, FBIG, ISDIR, NAMETOOLONG, NFS_OK, NOENT, NOSPC, NOTDIR, NOTEMPTY, NXIO,
    PERM, STALE,
};
pub use tree::Tree;
