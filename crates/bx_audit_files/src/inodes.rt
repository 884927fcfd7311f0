//! Inodes and pieces, by their handles.

ghost use Rattle.std.specs.Prelude.{◌≡◌, IfOk, IfSome, IfNone};
ghost use Rattle.bx_audit_files.specs.Inodes.{IsBlockAt, IsInodeAt};
ghost use Rattle.bx_audit_files.specs.Audits.{CanRead, Chunks, IfTorn, ReadsChunks, Shows, StillShows};
ghost use Rattle.bx_layout.specs.declared.block.Block.{Block};
ghost use Rattle.bx_layout.specs.declared.inode.Inode.{Inode};
ghost use Rattle.bx_layout.specs.Inodes.{IsInode};
ghost use Rattle.bx_truth.specs.Stored.{HasInode};

use bx_audit_pages::{AuditError, chunk_at, torn_at};
use bx_base::OutOfMemory;
use bx_homes::Blocks;
use bx_layout::{Block, Inode};
use std::alloc::Global;

/// The kind of blocks that are inodes.
const INODE: u32 = 1;

/// The block of a kind that a handle names; torn exactly where it names none of that kind.
pub fn block_at<B: Blocks>(
    blocks: &mut B,
    areas: u16,
    handle: u64,
    kind: u32,
) -> Result<Block, AuditError>
    requires blocks { CanRead B.Blocks areas blocks.old }
    ensures ok { (chunks : Chunks) → Shows (B.tells blocks.old) areas (B.stands blocks.old) chunks → IfOk result (λ block. IsBlockAt chunks handle kind block) }
    ensures kind { IfOk result (λ block. block.kind ≡ kind) }
    ensures torn { (chunks : Chunks) → Shows (B.tells blocks.old) areas (B.stands blocks.old) chunks → IfTorn result (λ at found wanted. (block : Block) → IsBlockAt chunks handle kind block → ⊥) }
    ensures names { IfTorn result (λ at found names. names ≡ handle) }
    ensures shows { StillShows B.Blocks areas blocks.old blocks.new }
    ensures blocks { ReadsChunks B.Blocks blocks.old blocks.new result }
{
    let block = chunk_at(blocks, areas, handle)?;
    if block.kind != kind {
        return Err(torn_at(handle));
    }
    Ok(block)
}

/// The inode that a handle names; torn exactly where it names none.
pub fn inode_at<B: Blocks>(
    alloc: Global,
    blocks: &mut B,
    areas: u16,
    handle: u64,
) -> Result<Inode, AuditError>
    requires blocks { CanRead B.Blocks areas blocks.old }
    ensures ok { (chunks : Chunks) → Shows (B.tells blocks.old) areas (B.stands blocks.old) chunks → IfOk result (λ inode. IsInodeAt chunks handle inode) }
    ensures is { IfOk result IsInode }
    ensures torn { (chunks : Chunks) → Shows (B.tells blocks.old) areas (B.stands blocks.old) chunks → IfTorn result (λ at found wanted. (inode : Inode) → IsInodeAt chunks handle inode → ⊥) }
    ensures names { IfTorn result (λ at found names. names ≡ handle) }
    ensures shows { StillShows B.Blocks areas blocks.old blocks.new }
    ensures blocks { ReadsChunks B.Blocks blocks.old blocks.new result }
{
    let block = block_at(blocks, areas, handle, INODE)?;
    match inode_in(alloc, &block)? {
        None => Err(torn_at(handle)),
        Some(inode) => Ok(inode),
    }
}

/// The inode that a block of an inode is, `None` exactly where it is none.
fn inode_in(alloc: Global, block: &Block) -> Result<Option<Inode>, OutOfMemory>
    requires { block.now.kind ≡ 1 }
    ensures some { IfOk result (λ found. IfSome found (λ inode. HasInode inode block.now)) }
    ensures is { IfOk result (λ found. IfSome found IsInode) }
    ensures none { IfOk result (λ found. IfNone found ((inode : Inode) → HasInode inode block.now → ⊥)) }
{
    Inode::read(alloc, block.payload.bytes())
}
