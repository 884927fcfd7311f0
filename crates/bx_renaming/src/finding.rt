//! What RENAME finds in the two directories.

ghost use Rattle.std.specs.Prelude.{ℕ, [], IfOk, IfSome, Some};
ghost use Rattle.bx_changes.specs.Procedures.{Exclusive, LiveAt, NeedsOn, NeverInner, Tree, Truth, names_of, reads_with};
ghost use Rattle.bx_linking.specs.bx_entries.specs.Finding.{IsDirectoryOf};
ghost use Rattle.bx_changes.specs.bx_files.specs.Paths.{LandsAtValue};
ghost use Rattle.bx_truth.specs.Keys.{name_key, name_value};
ghost use Rattle.bx_renaming.specs.Found.{MovedFor, OnEntry, OtherFor};

use bx_base::Mode;
use bx_inodes::{Stop, inode_at};
use bx_linking::entries::{Known, entry_for};
use bx_linking::find_entry;
use bx_records::Draft;
use bx_views::View;
use std::alloc::Global;

/// The number of the entry with a name in a directory, by its inode, and the file that it names.
///
/// `Need` names a block on the path of the search for the name, shared, or that of the inode that it names, exclusively. The status is `NOENT`, exactly
/// where no entry has the name, and `STALE` where the file isn't there.
pub fn moved_for<V: View>(
    alloc: Global,
    view: &V,
    areas: u16,
    directory: &Known,
    name: &[u8],
) -> Result<(u32, Known), Stop>
    ensures step { (volume : ℕ) (truth : Truth) (tree : Tree) → (is : IsDirectoryOf volume areas (V.held view.now) (V.hints view.now) truth tree directory.now.handle directory.now.inode)
        → MovedFor areas truth tree (names_of is.at.file.body) name.now result }
    ensures live { IfOk result (λ found. LiveAt (reads_with (V.held view.now) (V.hints view.now) []) areas found.1.handle Exclusive found.1.inode) }
    ensures finds { IfOk result (λ found. LandsAtValue (V.held view.now) (V.hints view.now) directory.now.inode.tree (name_key name.now) (Some (name_value found.0 found.1.handle))) }
    ensures need { NeedsOn areas (V.held view.now) (OnEntry (V.held view.now) (V.hints view.now) directory.now.inode.tree name.now) result }
    ensures inner { NeverInner result }
{
    match entry_for(alloc, view, areas, directory.inode.tree, name) {
        Err(stop) => Err(stop),
        Ok((number, handle)) => {
            let none = Draft::new(alloc);
            match inode_at(alloc, &none, view, areas, handle, Mode::Exclusive) {
                Err(stop) => Err(stop),
                Ok(inode) => Ok((number, Known { handle, inode })),
            }
        }
    }
}

/// The same of an entry that need not be there; `None` exactly where no entry has the name.
pub fn other_for<V: View>(
    alloc: Global,
    view: &V,
    areas: u16,
    directory: &Known,
    name: &[u8],
) -> Result<Option<(u32, Known)>, Stop>
    ensures step { (volume : ℕ) (truth : Truth) (tree : Tree) → (is : IsDirectoryOf volume areas (V.held view.now) (V.hints view.now) truth tree directory.now.handle directory.now.inode)
        → OtherFor areas truth tree (names_of is.at.file.body) name.now result }
    ensures live { IfOk result (λ found. IfSome found (λ found. LiveAt (reads_with (V.held view.now) (V.hints view.now) []) areas found.1.handle Exclusive found.1.inode)) }
    ensures finds { IfOk result (λ found. IfSome found (λ found. LandsAtValue (V.held view.now) (V.hints view.now) directory.now.inode.tree (name_key name.now) (Some (name_value found.0 found.1.handle)))) }
    ensures need { NeedsOn areas (V.held view.now) (OnEntry (V.held view.now) (V.hints view.now) directory.now.inode.tree name.now) result }
    ensures inner { NeverInner result }
{
    match find_entry(alloc, view, areas, directory.inode.tree, name) {
        Err(stop) => Err(stop),
        Ok(None) => Ok(None),
        Ok(Some((number, handle))) => {
            let none = Draft::new(alloc);
            match inode_at(alloc, &none, view, areas, handle, Mode::Exclusive) {
                Err(stop) => Err(stop),
                Ok(inode) => Ok(Some((number, Known { handle, inode }))),
            }
        }
    }
}
