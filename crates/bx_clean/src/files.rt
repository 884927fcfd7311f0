//! A dead file, which loses its tree and then its inode.

ghost use Rattle.bx_changes.specs.Procedures.{IsInode};
ghost use Rattle.bx_clean.specs.Trees.{CleansFile, CleansTree, FreesFile};

use crate::held::{dead_inode_at, page_at};
use crate::pages::cut;
use crate::puts::{freed, inode_put};
use crate::trees::shrink_above;
use bx_chunks::ChunkError;
use bx_layout::Inode;
use bx_marks::mark_dead;
use bx_records::Draft;
use bx_views::View;
use std::alloc::Global;

/// A step at the dead file with a handle.
pub(crate) fn clean_file<V: View>(
    alloc: Global,
    view: &V,
    areas: u16,
    handle: u64,
) -> Result<Draft, ChunkError>
    ensures { CleansFile (V.held view.now) areas handle result }
{
    match dead_inode_at(alloc, view, areas, handle) {
        Err(error) => Err(error),
        Ok(inode) => {
            if inode.tree == 0 {
                return free_file(alloc, view, areas, handle);
            }
            clean_tree(alloc, view, areas, handle, inode)
        }
    }
}

/// A step at the tree of a dead inode. Where no entry is left the inode loses it, and its root is freed.
fn clean_tree<V: View>(
    alloc: Global,
    view: &V,
    areas: u16,
    handle: u64,
    inode: Inode,
) -> Result<Draft, ChunkError>
    requires { IsInode inode }
    ensures { CleansTree (V.held view.now) areas handle inode result }
{
    match page_at(alloc, view, areas, inode.tree) {
        Err(error) => Err(error),
        Ok(page) => {
            if page.level() > 0 {
                return shrink_above(alloc, view, areas, inode.tree, &page);
            }
            if page.len() > 0 {
                return cut(alloc, view, areas, inode.tree, page);
            }
            let root = inode.tree;
            let bare = Inode { tree: 0, ..inode };
            let draft = inode_put(alloc, handle, &bare)?;
            freed(alloc, draft, view, areas, root)
        }
    }
}

/// Frees the slot of a dead inode, which is marked no more.
fn free_file<V: View>(alloc: Global, view: &V, areas: u16, handle: u64) -> Result<Draft, ChunkError>
    ensures { FreesFile (V.held view.now) areas handle result }
{
    let mut draft = Draft::new(alloc);
    match mark_dead(alloc, &mut draft, view, handle, false) {
        Err(error) => Err(error),
        Ok(()) => freed(alloc, draft, view, areas, handle),
    }
}
