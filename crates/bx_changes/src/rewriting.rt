//! An inode rewritten, and its file's attributes told.

ghost use Rattle.std.specs.Prelude.{◌≡◌, ◌<◌, ◌^◌, ℕ, IfOk, IsSome, Some};
ghost use Rattle.bx_base.specs.declared.names.Mode.TheVariants.{Exclusive};
ghost use Rattle.bx_reads.specs.bx_inodes.specs.Fitting.{HintsFitAll};
ghost use Rattle.bx_reads.specs.bx_inodes.specs.Inodes.{HoldsInode, shown_size};
ghost use Rattle.bx_layout.specs.Inodes.{IsInode};
ghost use Rattle.bx_layout.specs.declared.inode.Inode.{Inode as Kept};
ghost use Rattle.bx_model.specs.declared.reply.Reply.TheVariants.{Attributes};
ghost use Rattle.bx_model.specs.declared.tree.Tree.{Tree};
ghost use Rattle.bx_tree_files.specs.Attributes.{attributes_of};
ghost use Rattle.bx_tree_files.specs.declared.file.File.{File};
ghost use Rattle.bx_tree_files.specs.Files.{file_at, size_of, with_file};
ghost use Rattle.bx_reads.specs.bx_truth.specs.Chunks.{IsChunked, block_at};
ghost use Rattle.bx_reads.specs.bx_truth.specs.Rewritten.{KeepsBody};
ghost use Rattle.bx_reads.specs.bx_truth.specs.Stands.{StandsFor};
ghost use Rattle.bx_reads.specs.bx_truth.specs.Stored.{HasFields};
ghost use Rattle.bx_views.specs.Attempts.{IsHeldDraft};
ghost use Rattle.bx_views.specs.Truths.{Held, Hints, Truth, with_draft};
ghost use Rattle.bx_changes.specs.Changes.{IsOneBlock};

use bx_base::OutOfMemory;
use bx_layout::Inode;
use bx_model::Reply;
use bx_reads::attributes_by;
use bx_reads::inodes::put_inode;
use bx_records::Draft;
use std::alloc::Global;

/// A draft with the inode of the file with a handle, by the handle's number, and a reply with its attributes.
pub(crate) fn rewritten(
    alloc: Global,
    volume: u64,
    handle: u64,
    inode: &Inode,
) -> Result<(Draft, Reply), OutOfMemory>
    requires { IsInode inode.now }
    ensures tells { (file : File) → file.handle ≡ handle → HasFields inode.now file → size_of file.body ≡ shown_size inode.now → size_of file.body < 2 ^ 31
        → IfOk result (λ made. made.1 ≡ Attributes (attributes_of volume file)) }
    ensures tree { (areas : ℕ) (truth : Truth) (tree : Tree) (file file_now : File) (old : Kept) → StandsFor areas truth tree → file_at tree.files handle ≡ Some file
        → HoldsInode areas truth handle old → KeepsBody old inode.now → HasFields inode.now file_now → file_now.handle ≡ handle → file_now.body ≡ file.body
        → IfOk result (λ made. StandsFor areas (with_draft truth made.0) (record tree { files = with_file tree.files file_now })) }
    ensures hints { (areas : ℕ) (hints : Hints) (truth : Truth) (old : Kept) → IsChunked areas truth → HoldsInode areas truth handle old → inode.now.tree ≡ old.tree → HintsFitAll areas hints truth
        → IfOk result (λ made. HintsFitAll areas hints (with_draft truth made.0)) }
    ensures held { (held : Held) → IsSome (held (block_at handle) Exclusive) → IfOk result (λ made. IsHeldDraft held made.0) }
    ensures one { IfOk result (λ made. IsOneBlock (λ at mode. at ≡ block_at handle) made.0) }
{
    let words = attributes_by(alloc, volume, handle, inode)?;
    let mut draft = Draft::new(alloc);
    put_inode(alloc, &mut draft, handle, inode)?;
    Ok((draft, Reply::Attributes(words)))
}
