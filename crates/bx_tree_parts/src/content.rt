//! Contents of files.

ghost use Rattle.std.specs.Prelude.{◌≡◌, ◌+◌, ◌*◌, ◌<◌, ◌≤◌, ◌^◌, ◌++◌, length, take, drop, replicate, IfOk, MatchOption, OnOk, OnErr};
ghost use Rattle.bx_tree_parts.specs.Contents.{sized, written_over};
ghost use Rattle.bx_tree_parts.specs.Sparse.{AreZerosFrom, IsNext};

use crate::pieces::Pieces;
use bx_base::{OutOfMemory, Raw};
use std::alloc::Global;
use std::marker::Model;

/// The bytes of a regular file. Contracts see them as a list; only pieces that were written take memory.
#[derive(Drop)]
pub struct Content {
    alloc: Global,
    size: u32,
    pieces: Pieces,
}

impl Model for Content {
    ghost use Rattle.std.specs.Prelude.{ℕ, List};
    ghost use Rattle.bx_tree_parts.specs.Sparse.{IsContent, bytes_in};

    ghost Value = { List ℕ };

    ghost view = { λ content. bytes_in content.pieces content.size };

    ghost invariant = { λ content. IsContent content.pieces content.size };
}

impl Content {
    /// So many zeros. It takes no memory.
    pub fn zeros(alloc: Global, size: u32) -> Content
        ensures { result ≡ replicate size 0 }
    {
        Content {
            alloc,
            size,
            pieces: Pieces::new(alloc),
        }
    }

    /// How many bytes there are.
    pub fn len(&self) -> u32
        ensures { result ≡ length self.now }
    {
        self.size
    }

    /// The bytes from an offset on, at most so many.
    pub fn part(&self, offset: u32, count: u32) -> Result<Raw, OutOfMemory>
        ensures { IfOk result (λ bytes. bytes ≡ take count (drop offset self.now)) }
    {
        let start = self.size.min(offset);
        let len = (self.size - start).min(count);
        let bytes = self.pieces.copy(self.alloc, start as usize, len as usize)?;
        Ok(Raw::from(bytes))
    }

    /// The first piece with an index from one on that may have a byte that isn't zero: its index, and its bytes, as far as the file goes.
    pub fn next_piece(&self, from: u32) -> Option<(u32, &[u8])>
        ensures { MatchOption result (AreZerosFrom self.now (4096 * from)) (λ found. IsNext self.now from found.0 found.1.now) }
    {
        let (index, piece) = self.pieces.next(from)?;
        let start = 4096 * u64::from(index);
        let size = u64::from(self.size);
        if start >= size {
            return None;
        }
        let len = piece.len().min((size - start) as usize);
        Some((index, &piece[..len]))
    }

    /// Cuts the bytes at a size, or puts zeros behind them up to it. It takes no memory.
    pub fn resize(&mut self, size: u32)
        ensures { self.new ≡ sized size self.old }
    {
        if size < self.size {
            self.pieces.cut(size);
        }
        self.size = size;
    }

    /// Writes bytes over those from an offset on; a gap before it is zeros.
    pub fn write(&mut self, offset: u32, written: &[u8]) -> Result<(), OutOfMemory>
        requires { offset + length written.now < 2 ^ 31 }
        ensures ok { OnOk result (self.new ≡ written_over offset written.now self.old) }
        ensures err { OnErr result (self.new ≡ self.old) }
    {
        let end = offset + written.len() as u32;
        self.pieces
            .hold_all(self.alloc, offset / 4096, end.div_ceil(4096))?;
        self.pieces.put_all(offset as usize, written);
        if self.size < end {
            self.size = end;
        }
        Ok(())
    }
}
