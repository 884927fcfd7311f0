//! Reading items.

ghost use Rattle.std.specs.Prelude.{◌≡◌, ◌≤◌, length, take, IfSome, IfNone};
ghost use Rattle.bx_xdr.specs.Items.{SpellsWord, SpellsWords, SpellsFixed, SpellsOpaque, SpellsList, Reads, Lacks};

use crate::padding::{UNIT, padding_of};
use byteorder::{BigEndian, ByteOrder};
use std::marker::Model;

/// Reads items from the front of bytes. Contracts see it as the list of the bytes that are left.
#[derive(Drop)]
pub struct Reader<'a> {
    bytes: &'a [u8],
}

impl<'a> Model for Reader<'a> {
    ghost use Rattle.std.specs.Prelude.{ℕ, List};

    ghost Value = { List ℕ };

    ghost view = { λ reader. reader.bytes.now };
}

impl<'a> Reader<'a> {
    /// A reader of these bytes.
    pub fn new(bytes: &'a [u8]) -> Reader<'a>
        ensures { result ≡ bytes.now }
    {
        Reader { bytes }
    }

    /// The bytes that are left.
    pub fn rest(&self) -> &'a [u8]
        ensures { result.now ≡ self.now }
    {
        self.bytes
    }

    /// The next word (RFC 4506, section 4.2). `None` exactly where fewer than 4 bytes are left, and nothing is read then.
    pub fn word(&mut self) -> Option<u32>
        ensures some { IfSome result (λ word. Reads (SpellsWord word) self.old self.new) }
        ensures none { IfNone result (Lacks SpellsWord self.old) }
        ensures unchanged { IfNone result (self.new ≡ self.old) }
    {
        let (word, rest) = word_at(self.bytes)?;
        self.bytes = rest;
        Some(word)
    }

    /// Reads as many words as `into` has (RFC 4506, section 4.12). `None` exactly where fewer are left, and nothing is
    /// read then.
    pub fn words(&mut self, into: &mut [u32]) -> Option<()>
        ensures some { IfSome result (λ _. Reads (SpellsWords (length into.old) into.new) self.old self.new) }
        ensures none { IfNone result (Lacks (SpellsWords (length into.old)) self.old) }
        ensures unchanged { IfNone result (self.new ≡ self.old) }
    {
        self.bytes = words_at(self.bytes, into)?;
        Some(())
    }

    /// The next `n` bytes; their padding, whatever bytes that is, is passed over (RFC 4506, section 4.9). `None` exactly
    /// where fewer bytes are left than these and their padding, and nothing is read then.
    pub fn fixed(&mut self, n: usize) -> Option<&'a [u8]>
        ensures some { IfSome result (λ content. Reads (SpellsFixed n content.now) self.old self.new) }
        ensures none { IfNone result (Lacks (SpellsFixed n) self.old) }
        ensures unchanged { IfNone result (self.new ≡ self.old) }
    {
        let (content, rest) = fixed_at(self.bytes, n)?;
        self.bytes = rest;
        Some(content)
    }

    /// The next opaque data; its padding, whatever bytes that is, is passed over (RFC 4506, section 4.10). `None` exactly
    /// where it has more than `max` bytes, or it and its padding aren't all there, and nothing is read then.
    pub fn opaque(&mut self, max: u32) -> Option<&'a [u8]>
        ensures some { IfSome result (λ content. Reads (SpellsOpaque max content.now) self.old self.new) }
        ensures none { IfNone result (Lacks (SpellsOpaque max) self.old) }
        ensures unchanged { IfNone result (self.new ≡ self.old) }
    {
        let (content, rest) = opaque_at(self.bytes, max)?;
        self.bytes = rest;
        Some(content)
    }

    /// The next list of words, put into the front of `into`; how many there are (RFC 4506, section 4.13). `None` exactly
    /// where there are more than `into` has, or they aren't all there, and nothing is read then.
    pub fn list(&mut self, into: &mut [u32]) -> Option<usize>
        ensures some { IfSome result (λ count. Reads (SpellsList (length into.old) (take count into.new)) self.old self.new) }
        ensures fits { IfSome result (λ count. count ≤ length into.old) }
        ensures none { IfNone result (Lacks (SpellsList (length into.old)) self.old) }
        ensures unchanged { IfNone result (self.new ≡ self.old) }
    {
        let (count, rest) = list_at(self.bytes, into)?;
        self.bytes = rest;
        Some(count)
    }
}

/// The word at the front, and the bytes behind it.
fn word_at(bytes: &[u8]) -> Option<(u32, &[u8])>
    ensures some { IfSome result (λ found. Reads (SpellsWord found.0) bytes.now found.1.now) }
    ensures none { IfNone result (Lacks SpellsWord bytes.now) }
{
    if bytes.len() < UNIT {
        return None;
    }
    let (word, rest) = bytes.split_at(UNIT);
    Some((BigEndian::read_u32(word), rest))
}

/// Reads the words at the front, as many as `into` has; the bytes behind them.
fn words_at<'a>(bytes: &'a [u8], into: &mut [u32]) -> Option<&'a [u8]>
    ensures some { IfSome result (λ rest. Reads (SpellsWords (length into.old) into.new) bytes.now rest.now) }
    ensures none { IfNone result (Lacks (SpellsWords (length into.old)) bytes.now) }
{
    if bytes.len() / UNIT < into.len() {
        return None;
    }
    let (front, rest) = bytes.split_at(UNIT * into.len());
    BigEndian::read_u32_into(front, into);
    Some(rest)
}

/// The `n` bytes at the front, and the bytes behind their padding.
fn fixed_at(bytes: &[u8], n: usize) -> Option<(&[u8], &[u8])>
    ensures some { IfSome result (λ found. Reads (SpellsFixed n found.0.now) bytes.now found.1.now) }
    ensures none { IfNone result (Lacks (SpellsFixed n) bytes.now) }
{
    let padding = padding_of(n);
    if bytes.len() < n || bytes.len() - n < padding {
        return None;
    }
    let (content, behind) = bytes.split_at(n);
    Some((content, &behind[padding..]))
}

/// The opaque data at the front, and the bytes behind its padding.
fn opaque_at(bytes: &[u8], max: u32) -> Option<(&[u8], &[u8])>
    ensures some { IfSome result (λ found. Reads (SpellsOpaque max found.0.now) bytes.now found.1.now) }
    ensures none { IfNone result (Lacks (SpellsOpaque max) bytes.now) }
{
    let (len, behind) = word_at(bytes)?;
    if len > max {
        return None;
    }
    fixed_at(behind, len as usize)
}

/// Reads the list of words at the front; how many there are, and the bytes behind them.
fn list_at<'a>(bytes: &'a [u8], into: &mut [u32]) -> Option<(usize, &'a [u8])>
    ensures some { IfSome result (λ found. Reads (SpellsList (length into.old) (take found.0 into.new)) bytes.now found.1.now) }
    ensures fits { IfSome result (λ found. found.0 ≤ length into.old) }
    ensures none { IfNone result (Lacks (SpellsList (length into.old)) bytes.now) }
{
    let (count, behind) = word_at(bytes)?;
    let count = count as usize;
    if count > into.len() {
        return None;
    }
    let rest = words_at(behind, &mut into[..count])?;
    Some((count, rest))
}
