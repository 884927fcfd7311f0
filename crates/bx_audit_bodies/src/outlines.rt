//! What is known of an inode once its tree was read.

use crate::claims::Claim;
use crate::pieces::Piece;
use bx_layout::Inode;
use bx_tree_files::File;

/// What an inode is, as far as its tree tells.
#[derive(Drop)]
pub enum Outline {
    /// It is dead, and has these chunks: the pages of its tree, and the blocks of the pieces that are left.
    Dead(Vec<Claim>),
    /// It is a file's.
    File(FileOutline),
}

/// What is known of a file before the blocks of its pieces are read.
#[derive(Drop)]
pub struct FileOutline {
    /// The handle of its inode.
    pub handle: u64,
    /// The chunks that its tree has: its pages, and the blocks of its pieces.
    pub claims: Vec<Claim>,
    /// What it consists of.
    pub(crate) parts: Parts,
}

/// What a file consists of.
#[derive(Drop)]
pub(crate) enum Parts {
    /// All of the file, which has no pieces: a directory's or a link's.
    Whole(File),
    /// The inode of a regular file, and its pieces.
    Pieces(Inode, Vec<Piece>),
}
