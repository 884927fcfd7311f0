//! Where an entry is to be put.

/// Where an entry is to be put into a page tree.
#[derive(Clone, Copy)]
pub struct Target<'a> {
    /// The handle of the tree's root.
    pub root: u64,
    /// The entry's key.
    pub key: &'a [u8],
    /// The area near which blocks for it are looked for.
    pub near: u16,
    /// How many areas there are.
    pub areas: u16,
}
