//! Reading a page from bytes.

ghost use Rattle.std.specs.Prelude.{◌≡◌, IfOk, IfSome, IfNone};
ghost use Rattle.bx_base.specs.Reading.{Gives, list_at};
ghost use Rattle.bx_page.specs.Reading.{lengths_at, entry_at, high_of, high_at, numbers_at, contents_at};
ghost use Rattle.bx_page.specs.Parts.{seen};
ghost use Rattle.bx_page.specs.Contents.{Contents};
ghost use Rattle.bx_page.specs.Spelling.{Spells};

use crate::checks::are_fit;
use crate::entry::Entry;
use crate::page::{Page, SIZE};
use crate::writing::NO_HIGH;
use bx_base::{OutOfMemory, Raw, ReadError, before_zeros, front_at, u16_at, u64_at};
use std::alloc::Global;

/// The most bytes of a key.
pub(crate) const MOST_KEY: usize = 256;

/// The most bytes of a key with its value.
pub(crate) const MOST_BOTH: usize = 268;

/// What a page may have in it.
#[derive(Drop)]
pub(crate) struct Parts {
    pub(crate) level: u16,
    pub(crate) right: u64,
    pub(crate) high: Option<Raw>,
    pub(crate) entries: Vec<Entry>,
}

impl Page {
    /// The page that these bytes are. `None` exactly where they are no page.
    pub fn read(alloc: Global, payload: &[u8]) -> Result<Option<Page>, OutOfMemory>
        ensures some { IfOk result (λ found. IfSome found (λ page. Spells page payload.now)) }
        ensures none { IfOk result (λ found. IfNone found ((page : Contents) → Spells page payload.now → ⊥)) }
    {
        if payload.len() != SIZE {
            return Ok(None);
        }
        let Some(parts) = before_zeros(parts_of(alloc, payload))? else {
            return Ok(None);
        };
        if !are_fit(&parts) {
            return Ok(None);
        }
        Ok(Some(Page {
            alloc,
            level: parts.level,
            right: parts.right,
            high: parts.high,
            entries: parts.entries,
        }))
    }
}

/// The lengths of a key and of its value at the front, and the bytes behind them.
#[tactic(auto, unfolding(crate::specs::Reading::lengths_at))]
fn lengths_of(bytes: &[u8]) -> Result<((usize, usize), &[u8]), ReadError>
    ensures { Gives (λ x. (x.0, x.1.now)) result (lengths_at bytes.now) }
{
    let (key, rest) = u16_at(bytes)?;
    let (value, rest) = u16_at(rest)?;
    let (key, value) = (key as usize, value as usize);
    if MOST_KEY < key || MOST_BOTH < key + value {
        return Err(ReadError::Malformed);
    }
    Ok(((key, value), rest))
}

/// The entry at the front, and the bytes behind it.
#[tactic(auto, unfolding(crate::specs::Reading::entry_at))]
fn entry_of(alloc: Global, bytes: &[u8]) -> Result<(Entry, &[u8]), ReadError>
    ensures { Gives (λ x. (x.0, x.1.now)) result (entry_at bytes.now) }
{
    let ((key, value), rest) = lengths_of(bytes)?;
    let (key, rest) = front_at(rest, key)?;
    let (value, rest) = front_at(rest, value)?;
    Ok((Entry::of(alloc, key, value)?, rest))
}

/// As many entries as are wanted, and the bytes behind them.
fn entries_of(alloc: Global, count: u16, bytes: &[u8]) -> Result<(Vec<Entry>, &[u8]), ReadError>
    ensures { Gives (λ x. (x.0.items, x.1.now)) result (list_at count entry_at bytes.now) }
{
    let mut entries = Vec::new(alloc);
    let mut rest = bytes;
    for _ in 0..count {
        let (entry, after) = entry_of(alloc, rest)?;
        entries.push(entry)?;
        rest = after;
    }
    Ok((entries, rest))
}

/// The high key of a length at the front, and the bytes behind it.
#[tactic(auto, unfolding(crate::specs::Reading::high_of))]
fn high_key(alloc: Global, len: u16, bytes: &[u8]) -> Result<(Option<Raw>, &[u8]), ReadError>
    ensures { Gives (λ x. (x.0, x.1.now)) result (high_of len bytes.now) }
{
    if len == NO_HIGH {
        return Ok((None, bytes));
    }
    if MOST_KEY < len as usize {
        return Err(ReadError::Malformed);
    }
    let (high, rest) = front_at(bytes, len as usize)?;
    Ok((Some(Raw::of(alloc, high)?), rest))
}

/// The length of the high key, two zeros and the high key at the front, and the bytes behind them.
#[tactic(auto, unfolding(crate::specs::Reading::high_at))]
fn high_part(alloc: Global, bytes: &[u8]) -> Result<(Option<Raw>, &[u8]), ReadError>
    ensures { Gives (λ x. (x.0, x.1.now)) result (high_at bytes.now) }
{
    let (len, rest) = u16_at(bytes)?;
    let (zeros, rest) = u16_at(rest)?;
    if zeros != 0 {
        return Err(ReadError::Malformed);
    }
    high_key(alloc, len, rest)
}

/// The level, the number of entries and the right link at the front, and the bytes behind them.
#[tactic(auto, unfolding(crate::specs::Reading::numbers_at))]
fn numbers_of(bytes: &[u8]) -> Result<((u16, u16, u64), &[u8]), ReadError>
    ensures { Gives (λ x. (x.0, x.1.now)) result (numbers_at bytes.now) }
{
    let (level, rest) = u16_at(bytes)?;
    let (count, rest) = u16_at(rest)?;
    let (right, rest) = u64_at(rest)?;
    Ok(((level, count, right), rest))
}

/// The parts of a page at the front, and the bytes behind them.
#[tactic(auto, unfolding(crate::specs::Reading::contents_at))]
pub(crate) fn parts_of(alloc: Global, bytes: &[u8]) -> Result<(Parts, &[u8]), ReadError>
    ensures { Gives (λ x. (seen x.0, x.1.now)) result (contents_at bytes.now) }
{
    let ((level, count, right), rest) = numbers_of(bytes)?;
    let (high, rest) = high_part(alloc, rest)?;
    let (entries, rest) = entries_of(alloc, count, rest)?;
    let parts = Parts {
        level,
        right,
        high,
        entries,
    };
    Ok((parts, rest))
}
