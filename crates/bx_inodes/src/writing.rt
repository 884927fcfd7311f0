//! Inodes that are written anew.

ghost use Rattle.std.specs.Prelude.{◌≡◌, ◌<◌, ℕ, IfOk, IsSome, OnErr, OnOk, Some, length};
ghost use Rattle.bx_base.specs.declared.names.Mode.TheVariants.{Exclusive};
ghost use Rattle.bx_layout.specs.Inodes.{IsInode};
ghost use Rattle.bx_layout.specs.declared.inode.Inode.{Inode as Kept};
ghost use Rattle.bx_blink.specs.bx_model.specs.declared.tree.Tree.{Tree};
ghost use Rattle.bx_blink.specs.bx_tree_files.specs.declared.file.File.{File};
ghost use Rattle.bx_blink.specs.bx_tree_files.specs.Files.{file_at, with_file};
ghost use Rattle.bx_blink.specs.bx_truth.specs.Chunks.{block_at as place_of};
ghost use Rattle.bx_blink.specs.bx_truth.specs.Rewritten.{KeepsBody};
ghost use Rattle.bx_blink.specs.bx_truth.specs.Stands.{StandsFor};
ghost use Rattle.bx_blink.specs.bx_truth.specs.Stored.{HasFields};
ghost use Rattle.bx_blink.specs.bx_views.specs.Attempts.{IsHeldDraft};
ghost use Rattle.bx_blink.specs.bx_views.specs.Truths.{Held, Truth, with_draft};
ghost use Rattle.bx_inodes.specs.Inodes.{HoldsInode};
ghost use Rattle.bx_inodes.specs.Writing.{IsInodeBlock, PutsInode};

use crate::inodes::INODE;
use bx_base::{OutOfMemory, Raw};
use bx_blink::block_at;
use bx_blink::records::Draft;
use bx_layout::{Block, Inode};
use bx_places::PAYLOAD;
use std::alloc::Global;

/// Puts the inode of the file with a handle into a draft that has room for it. On an error nothing changes.
pub fn put_inode(
    alloc: Global,
    draft: &mut Draft,
    handle: u64,
    inode: &Inode,
) -> Result<(), OutOfMemory>
    requires inode { IsInode inode.now }
    requires room { length draft.old < 16 }
    ensures puts { OnOk result (PutsInode draft.old draft.new handle inode.now) }
    ensures tree { (areas : ℕ) (truth : Truth) (tree : Tree) (file file_now : File) (old : Kept) → StandsFor areas (with_draft truth draft.old) tree
        → file_at tree.files handle ≡ Some file → HoldsInode areas (with_draft truth draft.old) handle old → KeepsBody old inode.now
        → HasFields inode.now file_now → file_now.handle ≡ handle → file_now.body ≡ file.body
        → OnOk result (StandsFor areas (with_draft truth draft.new) (record tree { files = with_file tree.files file_now })) }
    ensures held { (held : Held) → IsHeldDraft held draft.old → IsSome (held (place_of handle) Exclusive) → OnOk result (IsHeldDraft held draft.new) }
    ensures err { OnErr result (draft.new ≡ draft.old) }
{
    let block = block_of(alloc, handle, inode)?;
    match draft.put(block_at(handle), block) {
        Ok(()) => Ok(()),
        Err(_) => Err(OutOfMemory),
    }
}

/// The block that an inode is.
fn block_of(alloc: Global, handle: u64, inode: &Inode) -> Result<Block, OutOfMemory>
    requires { IsInode inode.now }
    ensures { IfOk result (IsInodeBlock handle inode.now) }
{
    let mut payload = [0; PAYLOAD];
    inode.write(&mut payload);
    let payload = Raw::of(alloc, &payload)?;
    Ok(Block {
        handle,
        kind: INODE,
        payload,
    })
}
