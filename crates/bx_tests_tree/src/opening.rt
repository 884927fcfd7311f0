//! Trees to begin with.

use crate::reading::line_of;
use bx_base::OutOfMemory;
use bx_model::{Body, File, NameList, Tree};
use std::alloc::Global;

/// The tree of a volume that was just made. The words of the text are its number, how many areas it has, and the number
/// that the root gives its next entry.
pub(crate) fn opened(alloc: Global, text: &str) -> Result<Tree, OutOfMemory> {
    let line = line_of(alloc, 0, text)?;
    let mut tree = Tree::opening(alloc, line.number(0))?;
    tree.areas = line.number(1).min(64) as u16;
    let next = line.word(2).max(3);
    tree.files.insert(File {
        handle: 1,
        kind: 2,
        mode: 0o777,
        nlink: 2,
        uid: 0,
        gid: 0,
        atime: (0, 0),
        mtime: (0, 0),
        ctime: (0, 0),
        body: Body::Names(1, next, NameList::new(alloc)),
    })?;
    Ok(tree)
}
