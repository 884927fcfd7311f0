//! A file's attributes.

ghost use Rattle.std.specs.Prelude.{◌≡◌, ◌<◌, ◌%◌, ◌^◌, length, IfOk};
ghost use Rattle.bx_tree_files.specs.Attributes.{attributes_of, mode_word as mode_word_of, fileid as fileid_of};
ghost use Rattle.bx_tree_files.specs.Files.{IsFile, size_of as body_size};

use crate::file::{Body, DIRECTORY, File, LINK};
use bx_places::ChunkHandle;
use bx_tree_parts::base::{OutOfMemory, Words};
use std::alloc::Global;

/// How many bytes a block has.
pub const BLOCK_LEN: u32 = 4096;

/// The 17 words of a file's attributes (RFC 1094, section 2.3.5).
pub fn attributes(alloc: Global, volume: u64, file: &File) -> Result<Words, OutOfMemory>
    requires { IsFile file.now }
    ensures { IfOk result (λ words. words ≡ attributes_of volume file.now) }
{
    words_of(alloc, &attribute_words(volume, file))
}

/// The same as an array.
pub fn attribute_words(volume: u64, file: &File) -> [u32; 17]
    requires { IsFile file.now }
    ensures { result ≡ attributes_of volume file.now }
{
    let size = size_of(&file.body);
    [
        file.kind,
        mode_word(file),
        file.nlink,
        file.uid,
        file.gid,
        size,
        BLOCK_LEN,
        0,
        (size + 511) / 512,
        low_word(volume),
        fileid(file.handle),
        file.atime.0,
        file.atime.1,
        file.mtime.0,
        file.mtime.1,
        file.ctime.0,
        file.ctime.1,
    ]
}

/// A file's mode with the bits of its type.
pub fn mode_word(file: &File) -> u32
    ensures { result ≡ mode_word_of file.now }
{
    let type_bits = match file.kind {
        DIRECTORY => 0o040000,
        LINK => 0o120000,
        _ => 0o100000,
    };
    type_bits | file.mode
}

/// A file's size: the bytes of a regular file or of a link's path; a directory counts as one block.
pub fn size_of(body: &Body) -> u32
    requires { body_size body.now < 2 ^ 31 }
    ensures { result ≡ body_size body.now }
{
    match body {
        Body::Bytes(bytes) => bytes.len(),
        Body::Path(path) => path.bytes().len() as u32,
        Body::Names(_, _, _) => BLOCK_LEN,
    }
}

/// The low 32 bits of a number.
fn low_word(number: u64) -> u32
    ensures { result ≡ number % 2 ^ 32 }
{
    (number % (1 << 32)) as u32
}

/// A file's number.
pub fn fileid(handle: u64) -> u32
    ensures { result ≡ fileid_of handle }
{
    ChunkHandle::of(handle).fileid()
}

/// The words as a list.
pub fn words_of(alloc: Global, words: &[u32]) -> Result<Words, OutOfMemory>
    ensures { IfOk result (λ list. list ≡ words.now) }
{
    let mut list = Words::new(alloc);
    for word in words {
        list.push(*word)?;
    }
    Ok(list)
}

/// Puts words in the place of as many others.
pub fn put_words(list: &mut Words, words: &[u32])
    requires { length list.old ≡ length words.now }
    ensures { list.new ≡ words.now }
{
    for (at, word) in words.iter().enumerate() {
        list.set(at, *word);
    }
}
