//! Reading the parts of a page, with nothing copied.

ghost use Rattle.std.specs.Prelude.{◌≡◌, ◌≤◌, ◌↔◌, IfErr, IsTrue, length, replicate};
ghost use Rattle.std.specs.Option.{option_copied};
ghost use Rattle.bx_base.specs.Reading.{Gives};
ghost use Rattle.bx_base.specs.declared.error.ReadError.TheVariants.{Malformed};
ghost use Rattle.bx_page.specs.Reading.{lengths_at, entry_at, high_of, high_at, numbers_at};
ghost use Rattle.bx_page_bytes.specs.Checks.{follows, fits_level, ends_below, rest_behind};

use crate::entries::EntryBytes;
use crate::page::SIZE;
use bx_base::{ReadError, front_at, u16_at, u64_at};

/// The most bytes of a key.
const MOST_KEY: usize = 256;

/// The most bytes of a key with its value.
const MOST_BOTH: usize = 268;

/// The length of a high key where there is none.
const NO_HIGH: u16 = 65535;

/// How many bytes the handle of a child has.
const HANDLE: usize = 8;

/// The lengths of a key and of its value at the front, and the bytes behind them.
#[tactic(auto, unfolding(bx_page::specs::Reading::lengths_at))]
fn lengths_of(bytes: &[u8]) -> Result<((usize, usize), &[u8]), ReadError>
    ensures value { Gives (λ x. (x.0, x.1.now)) result (lengths_at bytes.now) }
    ensures cause { IfErr result (λ error. error ≡ Malformed) }
{
    let (key, rest) = u16_at(bytes)?;
    let (value, rest) = u16_at(rest)?;
    let (key, value) = (key as usize, value as usize);
    if MOST_KEY < key || MOST_BOTH < key + value {
        return Err(ReadError::Malformed);
    }
    Ok(((key, value), rest))
}

/// The entry at the front, and the bytes behind it.
#[tactic(auto, unfolding(bx_page::specs::Reading::entry_at))]
pub(crate) fn entry_of<'a>(bytes: &'a [u8]) -> Result<(EntryBytes<'a>, &'a [u8]), ReadError>
    ensures value { Gives (λ x. (x.0, x.1.now)) result (entry_at bytes.now) }
    ensures cause { IfErr result (λ error. error ≡ Malformed) }
{
    let ((key, value), rest) = lengths_of(bytes)?;
    let (key, rest) = front_at(rest, key)?;
    let (value, rest) = front_at(rest, value)?;
    Ok((EntryBytes { key, value }, rest))
}

/// The high key of a length at the front, and the bytes behind it.
#[tactic(auto, unfolding(bx_page::specs::Reading::high_of))]
fn high_key(len: u16, bytes: &[u8]) -> Result<(Option<&[u8]>, &[u8]), ReadError>
    ensures value { Gives (λ x. (option_copied x.0, x.1.now)) result (high_of len bytes.now) }
    ensures cause { IfErr result (λ error. error ≡ Malformed) }
{
    if len == NO_HIGH {
        return Ok((None, bytes));
    }
    if MOST_KEY < len as usize {
        return Err(ReadError::Malformed);
    }
    let (high, rest) = front_at(bytes, len as usize)?;
    Ok((Some(high), rest))
}

/// The length of the high key, two zeros and the high key at the front, and the bytes behind them.
#[tactic(auto, unfolding(bx_page::specs::Reading::high_at))]
pub(crate) fn high_part(bytes: &[u8]) -> Result<(Option<&[u8]>, &[u8]), ReadError>
    ensures value { Gives (λ x. (option_copied x.0, x.1.now)) result (high_at bytes.now) }
    ensures cause { IfErr result (λ error. error ≡ Malformed) }
{
    let (len, rest) = u16_at(bytes)?;
    let (zeros, rest) = u16_at(rest)?;
    if zeros != 0 {
        return Err(ReadError::Malformed);
    }
    high_key(len, rest)
}

/// The level, the number of entries and the right link at the front, and the bytes behind them.
#[tactic(auto, unfolding(bx_page::specs::Reading::numbers_at))]
pub(crate) fn numbers_of(bytes: &[u8]) -> Result<((u16, u16, u64), &[u8]), ReadError>
    ensures value { Gives (λ x. (x.0, x.1.now)) result (numbers_at bytes.now) }
    ensures cause { IfErr result (λ error. error ≡ Malformed) }
{
    let (level, rest) = u16_at(bytes)?;
    let (count, rest) = u16_at(rest)?;
    let (right, rest) = u64_at(rest)?;
    Ok(((level, count, right), rest))
}

/// The bytes behind as many entries as are wanted; `None` exactly where so many don't stand at the front, or they aren't those
/// of a page of a level with a high key.
pub(crate) fn behind_entries<'a>(
    level: u16,
    high: Option<&[u8]>,
    count: u16,
    bytes: &'a [u8],
) -> Option<&'a [u8]>
    ensures { option_copied result ≡ rest_behind level (option_copied high.entry) count None bytes.now }
{
    let mut before = None;
    let mut rest = bytes;
    for _ in 0..count {
        let Ok((entry, after)) = entry_of(rest) else {
            return None;
        };
        let key = entry.key();
        if !follows(before, key) || !fits_level(level, entry.value()) {
            return None;
        }
        before = Some(key);
        rest = after;
    }
    if ends_below(before, high) {
        Some(rest)
    } else {
        None
    }
}

/// Whether a key may follow the one before it.
fn follows(before: Option<&[u8]>, key: &[u8]) -> bool
    ensures { result ≡ follows (option_copied before.entry) key.now }
{
    match before {
        None => true,
        Some(before) => before.cmp(key).is_lt(),
    }
}

/// Whether a value may stand in a page of a level: above the leaves it is the handle of a child.
fn fits_level(level: u16, value: &[u8]) -> bool
    ensures { result ≡ fits_level level value.now }
{
    level == 0 || value.len() == HANDLE
}

/// Whether the last key, where there is one, is below a high key, where there is one.
fn ends_below(last: Option<&[u8]>, high: Option<&[u8]>) -> bool
    ensures { result ≡ ends_below (option_copied last.entry) (option_copied high.entry) }
{
    match (last, high) {
        (Some(last), Some(high)) => last.cmp(high).is_lt(),
        _ => true,
    }
}

/// Whether all bytes are zero, of at most 4096. They are compared in groups, since half of a page may be zeros.
pub(crate) fn are_zeros(bytes: &[u8]) -> bool
    requires { length bytes.now ≤ 4096 }
    ensures { IsTrue result ↔ (bytes.now ≡ replicate (length bytes.now) 0) }
{
    let zeros = [0; SIZE];
    bytes == &zeros[..bytes.len()]
}
