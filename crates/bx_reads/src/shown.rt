//! A file's attributes, by its inode.

ghost use Rattle.std.specs.Prelude.{◌≡◌, ◌<◌, ◌^◌, ◌%◌, IfOk, bit_or};
ghost use Rattle.bx_files.specs.bx_inodes.specs.Inodes.{shown_size};
ghost use Rattle.bx_tree_files.specs.Attributes.{attributes_of, type_bits as bits_of};
ghost use Rattle.bx_tree_files.specs.declared.file.File.{File};
ghost use Rattle.bx_tree_files.specs.Files.{size_of};
ghost use Rattle.bx_files.specs.bx_truth.specs.Stored.{HasFields};

use bx_base::{OutOfMemory, Words};
use bx_layout::Inode;
use bx_tree_files::{BLOCK_LEN, DIRECTORY, LINK, fileid, words_of};
use std::alloc::Global;

/// The 17 words of a file's attributes (RFC 1094, section 2.3.5), by the number of its handle and its inode.
pub fn attributes_by(
    alloc: Global,
    volume: u64,
    handle: u64,
    inode: &Inode,
) -> Result<Words, OutOfMemory>
    ensures { (file : File) → file.handle ≡ handle → HasFields inode.now file → size_of file.body ≡ shown_size inode.now → size_of file.body < 2 ^ 31
        → IfOk result (λ words. words ≡ attributes_of volume file) }
{
    let size = size_by(inode);
    let words = [
        inode.kind,
        type_bits(inode.kind) | inode.mode,
        inode.nlink,
        inode.uid,
        inode.gid,
        size,
        BLOCK_LEN,
        0,
        ((u64::from(size) + 511) / 512) as u32,
        (volume % (1 << 32)) as u32,
        fileid(handle),
        inode.atime.0,
        inode.atime.1,
        inode.mtime.0,
        inode.mtime.1,
        inode.ctime.0,
        inode.ctime.1,
    ];
    words_of(alloc, &words)
}

/// The bits that a mode has for a type.
fn type_bits(kind: u32) -> u32
    ensures { result ≡ bits_of kind }
{
    match kind {
        DIRECTORY => 0o040000,
        LINK => 0o120000,
        _ => 0o100000,
    }
}

/// The size that a file's inode shows; of a size that has more than 32 bits, which no file has, the low ones.
fn size_by(inode: &Inode) -> u32
    ensures { result ≡ shown_size inode.now % 2 ^ 32 }
{
    match inode.kind {
        DIRECTORY => BLOCK_LEN,
        LINK => (inode.path.bytes().len() as u64 % (1 << 32)) as u32,
        _ => (inode.size % (1 << 32)) as u32,
    }
}
