//! A rack whose disks are files of a folder.
#![tactic(auto)]

mod disk_file;
mod finding;
mod folder_rack;
mod making;

pub use folder_rack::FolderRack;
