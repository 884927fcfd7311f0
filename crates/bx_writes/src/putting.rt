//! A piece that is written, over a draft that has all pieces behind it.

ghost use Rattle.std.specs.Prelude.{◌≡◌, ◌+◌, ◌*◌, ◌≤◌, ◌<◌, ◌++◌, ℕ, List, IfOk, IfErr, None, length};
ghost use Rattle.bx_changes.specs.Procedures.{File, IfFull, IsHeldDraft, NeedsBy, NeverFirst, Tree, Truth};
ghost use Rattle.bx_files.specs.Paths.{LandsAtValue};
ghost use Rattle.bx_layout.specs.declared.inode.Inode.{Inode as Kept};
ghost use Rattle.bx_truth.specs.Keys.{content_key as content_key_of};
ghost use Rattle.bx_truth.specs.PageTrees.{PageTree};
ghost use Rattle.bx_writes.specs.Laid.{FoundBy, IsLaid, NoneLeft, OnAnew};
ghost use Rattle.bx_writes.specs.Steps.{HoldsPrepared, MayPut, PutsBlock, PutsOn};

use bx_base::{OutOfMemory, Raw};
use bx_blink::block_at;
use bx_changes::ChangeError;
use bx_chunks::allocate;
use bx_files::content_key;
use bx_inodes::Stop;
use bx_layout::Block;
use bx_leaves::insert;
use bx_records::Draft;
use bx_views::View;
use std::alloc::Global;

/// The kind of the blocks of pieces.
const DATA: u32 = 3;

/// Puts a piece that is prepared, with an index, into a draft that has all pieces behind it, by the root of its file's tree, near an area and of so
/// many. A piece that isn't there takes a block, and an entry in the tree. The draft gets four blocks more at most.
///
/// `Need` names a block of the volume that isn't held: what the next slot near the area needs, or what is on the path of the entry. `Full` comes only of a
/// piece that isn't there, where no slot is left. The status is `STALE` where what is held is no file: of one
/// it never comes.
pub(crate) fn put_piece<V: View>(
    alloc: Global,
    draft: Draft,
    near: (u16, u16),
    view: &V,
    root: u64,
    index: u32,
    prepared: (Option<u64>, Raw),
) -> Result<Draft, ChangeError>
    requires long { length prepared.1 ≡ 4096 }
    requires room { length draft ≤ 12 }
    ensures step { (truth : Truth) (tree : Tree) (handle : ℕ) (file : File) (pages : PageTree) (inode : Kept) (base : List ℕ) (place : ℕ) (part rest : List ℕ) (taken : ℕ)
        → MayPut near.1 (V.held view.now) (V.hints view.now) truth tree handle file pages inode base index place part rest taken draft prepared.0 prepared.1 → inode.tree ≡ root
        → PutsOn near.1 (V.held view.now) truth tree handle file pages inode base (4096 * index + place) (part ++ rest) index (taken + 1) result }
    ensures need { (handle : ℕ) → IsLaid (V.held view.now) (V.hints view.now) near.0 near.1 handle root draft
        → IfErr result (NeedsBy near.1 (V.held view.now) (OnAnew (V.held view.now) (V.hints view.now) near.0 near.1 handle root index)) }
    ensures full { (handle : ℕ) → FoundBy (V.held view.now) (V.hints view.now) root index prepared.0 → IsLaid (V.held view.now) (V.hints view.now) near.0 near.1 handle root draft
        → IfErr result (IfFull (λ spare. LandsAtValue (V.held view.now) (V.hints view.now) root (content_key_of index) None × NoneLeft (V.held view.now) (V.hints view.now) near.0 near.1 handle root spare)) }
    ensures laid { (handle : ℕ) → FoundBy (V.held view.now) (V.hints view.now) root index prepared.0 → IsLaid (V.held view.now) (V.hints view.now) near.0 near.1 handle root draft
        → IfOk result (IsLaid (V.held view.now) (V.hints view.now) near.0 near.1 handle root) }
    ensures inner { IfErr result NeverFirst }
    ensures held { IsHeldDraft (V.held view.now) draft → HoldsPrepared (V.held view.now) prepared.0 → IfOk result (IsHeldDraft (V.held view.now)) }
    ensures few { IfOk result (λ new. length new ≤ length draft + 4) }
{
    match prepared {
        (Some(names), payload) => match with_piece(draft, names, payload) {
            Err(_) => Err(ChangeError::Stopped(Stop::OutOfMemory)),
            Ok(new) => Ok(new),
        },
        (None, payload) => put_anew(alloc, draft, near, view, root, index, payload),
    }
}

/// The same of a piece that isn't there.
fn put_anew<V: View>(
    alloc: Global,
    draft: Draft,
    near: (u16, u16),
    view: &V,
    root: u64,
    index: u32,
    payload: Raw,
) -> Result<Draft, ChangeError>
    requires long { length payload ≡ 4096 }
    requires room { length draft ≤ 12 }
    ensures step { (truth : Truth) (tree : Tree) (handle : ℕ) (file : File) (pages : PageTree) (inode : Kept) (base : List ℕ) (place : ℕ) (part rest : List ℕ) (taken : ℕ)
        → MayPut near.1 (V.held view.now) (V.hints view.now) truth tree handle file pages inode base index place part rest taken draft None payload → inode.tree ≡ root
        → PutsOn near.1 (V.held view.now) truth tree handle file pages inode base (4096 * index + place) (part ++ rest) index (taken + 1) result }
    ensures need { (handle : ℕ) → IsLaid (V.held view.now) (V.hints view.now) near.0 near.1 handle root draft
        → IfErr result (NeedsBy near.1 (V.held view.now) (OnAnew (V.held view.now) (V.hints view.now) near.0 near.1 handle root index)) }
    ensures full { (handle : ℕ) → IsLaid (V.held view.now) (V.hints view.now) near.0 near.1 handle root draft
        → IfErr result (IfFull (λ spare. NoneLeft (V.held view.now) (V.hints view.now) near.0 near.1 handle root spare)) }
    ensures laid { (handle : ℕ) → IsLaid (V.held view.now) (V.hints view.now) near.0 near.1 handle root draft → IfOk result (IsLaid (V.held view.now) (V.hints view.now) near.0 near.1 handle root) }
    ensures inner { IfErr result NeverFirst }
    ensures held { IsHeldDraft (V.held view.now) draft → IfOk result (IsHeldDraft (V.held view.now)) }
    ensures few { IfOk result (λ new. length new ≤ length draft + 4) }
{
    let mut taken = draft;
    let names = match allocate(alloc, &mut taken, view, near.0, near.1) {
        Err(error) => return Err(ChangeError::of_chunks(error)),
        Ok(names) => names,
    };
    let mut new = match with_piece(taken, names, payload) {
        Err(_) => return Err(ChangeError::Stopped(Stop::OutOfMemory)),
        Ok(new) => new,
    };
    match insert(
        alloc,
        &mut new,
        view,
        root,
        &content_key(index),
        &names.to_be_bytes(),
    ) {
        Err(error) => Err(ChangeError::of_tree(near.1, error)),
        Ok(()) => Ok(new),
    }
}

/// The draft with the block of a piece under a handle.
fn with_piece(draft: Draft, names: u64, payload: Raw) -> Result<Draft, OutOfMemory>
    requires long { length payload ≡ 4096 }
    requires room { length draft ≤ 15 }
    ensures { IfOk result (PutsBlock draft names payload) }
{
    let mut draft = draft;
    let block = Block {
        handle: names,
        kind: DATA,
        payload,
    };
    match draft.put(block_at(names), block) {
        Ok(()) => Ok(draft),
        Err(_) => Err(OutOfMemory),
    }
}
