//! The tree.

ghost use Rattle.std.specs.Prelude.{◌≡◌, IfOk};
ghost use Rattle.bx_model.specs.Opening.{opening, opening_root as the_root};

use bx_tree_files::base::OutOfMemory;
use bx_tree_files::{Body, DIRECTORY, File, Files, Handles, NameList};
use std::alloc::Global;

/// The handle of the root that a volume is made with: area 0, slot 0, generation 1.
const ROOT: u64 = 1;

/// A file tree.
#[derive(Drop)]
pub struct Tree {
    /// The number of the volume, which the tree's file handles carry.
    pub volume: u64,
    /// How many areas the volume has.
    pub areas: u16,
    /// The files.
    pub files: Files,
    /// The root's handle.
    pub root: u64,
    /// The handles that were ever given out.
    pub given: Handles,
}

impl Tree {
    /// The tree of a volume that was just made: it has the root alone, and one area.
    pub fn opening(alloc: Global, volume: u64) -> Result<Tree, OutOfMemory>
        ensures { IfOk result (λ tree. tree ≡ opening volume) }
    {
        let mut files = Files::new(alloc);
        files.insert(opening_root(alloc))?;
        let mut given = Handles::new(alloc);
        given.insert(ROOT)?;
        Ok(Tree {
            volume,
            areas: 1,
            files,
            root: ROOT,
            given,
        })
    }
}

/// The root of a volume that was just made.
fn opening_root(alloc: Global) -> File
    ensures { result ≡ the_root }
{
    File {
        handle: ROOT,
        kind: DIRECTORY,
        mode: 0o777,
        nlink: 2,
        uid: 0,
        gid: 0,
        atime: (0, 0),
        mtime: (0, 0),
        ctime: (0, 0),
        body: Body::Names(ROOT, 3, NameList::new(alloc)),
    }
}
