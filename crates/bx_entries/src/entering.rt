//! Entries that are put into directories.

ghost use Rattle.std.specs.Prelude.{◌≡◌, ◌+◌, ◌≤◌, length, IfErr, IfOk, IfSome, IfNone, IsSome};
ghost use Rattle.bx_changes.specs.Procedures.{Exclusive, File, HoldsFirst, IfFull, IsHeldDraft, IsInode, NeedsBy, NeverFirst, Tree, Truth, block_at};
ghost use Rattle.bx_directory_reads.specs.bx_dirs.specs.Changes.{OnAddPath, entry_of};
ghost use Rattle.bx_entries.specs.Entering.{EntersIn, HasNumbers, MayEnter, PutsInAt, entered_inode};

use crate::Known;
use bx_changes::ChangeError;
use bx_directory_reads::dirs::add;
use bx_inodes::{Stop, put_inode};
use bx_layout::Inode;
use bx_model::STALE;
use bx_records::Draft;
use bx_views::View;
use std::alloc::Global;

/// Puts an entry with a name into a directory, by its inode, which is changed now, in seconds and microseconds: the draft with that. The entry
/// takes the directory's next number and names the file with a handle; a directory that comes in counts among the directory's links. The draft
/// gets three blocks more at most.
///
/// `Need` names a block of the volume that isn't held exclusively, and is on the path of the two changes. The status is `STALE` where what is
/// held is no directory into which such an entry may come: where it may, it never comes.
pub fn enter<V: View>(
    alloc: Global,
    draft: Draft,
    view: &V,
    areas: u16,
    directory: Known,
    name: &[u8],
    made: u64,
    counts: bool,
    now: (u32, u32),
) -> Result<Draft, ChangeError>
    requires inode { IsInode directory.inode }
    requires name { length name.now ≤ 255 }
    requires few { length draft ≤ 13 }
    ensures step { (truth : Truth) (tree : Tree) (file : File) → MayEnter areas (V.held view.now) (V.hints view.now) truth draft tree directory.handle directory.inode file name.now
        → EntersIn areas truth draft tree directory.handle directory.inode name.now made counts now result }
    ensures ends { IfOk result (λ new. PutsInAt (V.held view.now) (V.hints view.now) draft new directory.handle directory.inode name.now made counts now) }
    ensures need { IfErr result (NeedsBy areas (V.held view.now) (OnAddPath (V.held view.now) (V.hints view.now) draft directory.inode.tree (entry_of directory.inode.next name.now made))) }
    ensures inner { IfErr result NeverFirst }
    ensures full { IfErr result (IfFull (λ spare. ⊥)) }
    ensures first { IfErr result (HoldsFirst (V.held view.now)) }
    ensures held { IsHeldDraft (V.held view.now) draft → IsSome (V.held view.now (block_at directory.handle) Exclusive) → IfOk result (IsHeldDraft (V.held view.now)) }
    ensures few { IfOk result (λ new. length new ≤ length draft + 3) }
{
    let Known { handle, inode } = directory;
    let (root, number) = (inode.tree, inode.next);
    let Some(changed) = entered(inode, counts, now) else {
        return Err(ChangeError::Stopped(Stop::Status(STALE)));
    };
    let mut draft = draft;
    match add(alloc, &mut draft, view, root, number, name, made) {
        Err(error) => return Err(ChangeError::of_tree(areas, error)),
        Ok(()) => {}
    }
    match put_inode(alloc, &mut draft, handle, &changed) {
        Err(_) => Err(ChangeError::Stopped(Stop::OutOfMemory)),
        Ok(()) => Ok(draft),
    }
}

/// The inode of a directory with one more entry; `None` exactly where it has no number left for it.
fn entered(inode: Inode, counts: bool, now: (u32, u32)) -> Option<Inode>
    requires { IsInode inode }
    ensures some { IfSome result (λ changed. (changed ≡ entered_inode inode now counts) × IsInode changed) }
    ensures none { IfNone result (HasNumbers inode counts → ⊥) }
{
    let next = inode.next.checked_add(1)?;
    let nlink = if counts {
        inode.nlink.checked_add(1)?
    } else {
        inode.nlink
    };
    Some(Inode {
        nlink,
        next,
        mtime: now,
        ctime: now,
        ..inode
    })
}
