//! Pieces of bytes.

ghost use Rattle.std.specs.Prelude.{◌≡◌, ◌+◌, ◌*◌, ◌<◌, ◌≤◌, ◌^◌, ◌/◌, ◌++◌, ℕ, length, take, drop, IfOk, MatchOption, None, OnOk};
ghost use Rattle.bx_tree_parts.specs.Bytes.{bytes_from, HasNoneFrom, IsCleared, IsNextPiece, IsPut};
ghost use Rattle.std.specs.BTreeMap.{get};
ghost use Rattle.std.specs.Ordering.{nat_cmp};
ghost use Rattle.bx_tree_parts.specs.Pieces.{byte_at, AreWhole, IsHeld};

use bx_base::OutOfMemory;
use std::alloc::Global;
use std::collections::BTreeMap;
use std::ops::Bound;

/// How many bytes a piece has.
pub(crate) const PIECE: usize = 4096;

/// Pieces of 4096 bytes, by their indexes.
#[derive(Drop)]
pub struct Pieces {
    by_index: BTreeMap<u32, Vec<u8>>,
}

impl Pieces {
    /// No pieces. It takes no memory.
    pub(crate) fn new(alloc: Global) -> Pieces
        ensures zeros { (place : ℕ) → byte_at result place ≡ 0 }
        ensures whole { AreWhole result }
    {
        Pieces {
            by_index: BTreeMap::new(alloc),
        }
    }

    /// Puts a piece of zeros at an index, where there is none.
    fn hold(&mut self, alloc: Global, index: u32) -> Result<(), OutOfMemory>
        requires { AreWhole self.old }
        ensures has { OnOk result (IsHeld self.new index) }
        ensures keeps { (other : ℕ) → IsHeld self.old other → IsHeld self.new other }
        ensures same { (place : ℕ) → byte_at self.new place ≡ byte_at self.old place }
        ensures whole { AreWhole self.new }
    {
        if self.by_index.contains_key(&index) {
            return Ok(());
        }
        let zeros = vec![in alloc; 0; PIECE]?;
        self.by_index.insert(index, zeros)?;
        Ok(())
    }

    /// Puts pieces of zeros at the indexes from one on, below another, where there are none.
    pub(crate) fn hold_all(&mut self, alloc: Global, from: u32, end: u32) -> Result<(), OutOfMemory>
        requires { AreWhole self.old }
        ensures has { OnOk result ((index : ℕ) → from ≤ index → index < end → IsHeld self.new index) }
        ensures same { (place : ℕ) → byte_at self.new place ≡ byte_at self.old place }
        ensures whole { AreWhole self.new }
    {
        for index in from..end {
            self.hold(alloc, index)?;
        }
        Ok(())
    }

    /// Puts bytes into a piece, from a place in it on.
    fn put(&mut self, index: u32, inner: usize, part: &[u8])
        requires whole { AreWhole self.old }
        requires held { IsHeld self.old index }
        requires fits { inner + length part.now ≤ 4096 }
        ensures put { IsPut (byte_at self.old) (byte_at self.new) (4096 * index + inner) part.now }
        ensures keeps { (other : ℕ) → IsHeld self.old other → IsHeld self.new other }
        ensures whole { AreWhole self.new }
    {
        let Some(piece) = self.by_index.get_mut(&index) else {
            unreachable!();
        };
        put_over(piece, inner, part);
    }

    /// Puts bytes over those from a place on.
    pub(crate) fn put_all(&mut self, start: usize, bytes: &[u8])
        requires whole { AreWhole self.old }
        requires fits { start + length bytes.now < 2 ^ 32 }
        requires held { (place : ℕ) → start ≤ place → place < start + length bytes.now → IsHeld self.old (place / 4096) }
        ensures put { IsPut (byte_at self.old) (byte_at self.new) start bytes.now }
        ensures whole { AreWhole self.new }
    {
        let mut done = 0;
        while done < bytes.len() {
            let place = start + done;
            let inner = place % PIECE;
            let len = (PIECE - inner).min(bytes.len() - done);
            self.put((place / PIECE) as u32, inner, &bytes[done..done + len]);
            done += len;
        }
    }

    /// The index of the last piece, where it isn't below one.
    fn last_from(&self, end: u32) -> Option<u32>
        ensures { MatchOption result ((index : ℕ) → end ≤ index → get nat_cmp self.now.by_index index ≡ None) (λ index. (end ≤ index) × IsHeld self.now index) }
    {
        let (index, _) = self.by_index.last_key_value()?;
        if *index < end {
            return None;
        }
        Some(*index)
    }

    /// Takes out the pieces with an index from one on.
    fn take_from(&mut self, end: u32)
        ensures below { (index : ℕ) → index < end → get nat_cmp self.new.by_index index ≡ get nat_cmp self.old.by_index index }
        ensures gone { (index : ℕ) → end ≤ index → get nat_cmp self.new.by_index index ≡ None }
    {
        while let Some(index) = self.last_from(end) {
            self.by_index.remove(&index);
        }
    }

    /// Puts zeros into a piece from a place in it on, if there is the piece.
    fn clear(&mut self, index: u32, inner: usize)
        requires whole { AreWhole self.old }
        requires inner { inner < 4096 }
        ensures before { (place : ℕ) → place < 4096 * index + inner → byte_at self.new place ≡ byte_at self.old place }
        ensures here { (place : ℕ) → 4096 * index + inner ≤ place → place < 4096 * index + 4096 → byte_at self.new place ≡ 0 }
        ensures behind { (place : ℕ) → 4096 * index + 4096 ≤ place → byte_at self.new place ≡ byte_at self.old place }
        ensures whole { AreWhole self.new }
    {
        if self.by_index.contains_key(&index) {
            self.put(index, inner, &[0; PIECE][inner..]);
        }
    }

    /// Puts zeros over the bytes from a place on, and takes out the pieces that are wholly behind it.
    pub(crate) fn cut(&mut self, size: u32)
        requires whole { AreWhole self.old }
        ensures cleared { IsCleared (byte_at self.old) (byte_at self.new) size }
        ensures whole { AreWhole self.new }
    {
        let index = size / 4096;
        self.take_from(index + 1);
        self.clear(index, (size % 4096) as usize);
    }

    /// Puts the bytes of a part of a piece at the end of others.
    fn copy_part(
        &self,
        bytes: &mut Vec<u8>,
        index: u32,
        inner: usize,
        len: usize,
    ) -> Result<(), OutOfMemory>
        requires whole { AreWhole self.now }
        requires fits { inner + len ≤ 4096 }
        ensures { OnOk result (bytes.new.items ≡ bytes.old.items ++ bytes_from (byte_at self.now) (4096 * index + inner) len) }
    {
        match self.by_index.get(&index) {
            Some(piece) => {
                bytes.extend_from_slice(&piece[inner..inner + len])?;
            }
            None => {
                let zeros = [0; PIECE];
                bytes.extend_from_slice(&zeros[..len])?;
            }
        }
        Ok(())
    }

    /// So many bytes from a place on.
    pub(crate) fn copy(
        &self,
        alloc: Global,
        start: usize,
        len: usize,
    ) -> Result<Vec<u8>, OutOfMemory>
        requires whole { AreWhole self.now }
        requires fits { start + len < 2 ^ 32 }
        ensures { IfOk result (λ bytes. bytes.items ≡ bytes_from (byte_at self.now) start len) }
    {
        let mut bytes = Vec::new(alloc);
        let mut done = 0;
        while done < len {
            let place = start + done;
            let inner = place % PIECE;
            let part = (PIECE - inner).min(len - done);
            self.copy_part(&mut bytes, (place / PIECE) as u32, inner, part)?;
            done += part;
        }
        Ok(bytes)
    }

    /// The first piece with an index from one on.
    pub(crate) fn next(&self, from: u32) -> Option<(u32, &[u8])>
        requires whole { AreWhole self.now }
        ensures { MatchOption result (HasNoneFrom (byte_at self.now) from) (λ found. IsNextPiece (byte_at self.now) from found.0 found.1.now) }
    {
        let mut rest = self
            .by_index
            .range((Bound::Included(from), Bound::Unbounded));
        let (index, piece) = rest.next()?;
        Some((*index, piece.as_slice()))
    }
}

/// Writes bytes over those from a place on.
fn put_over(bytes: &mut Vec<u8>, at: usize, part: &[u8])
    requires { at + length part.now ≤ length bytes.old.items }
    ensures { bytes.new.items ≡ take at bytes.old.items ++ part.now ++ drop (at + length part.now) bytes.old.items }
{
    bytes[at..at + part.len()].copy_from_slice(part);
}
