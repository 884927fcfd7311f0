//! Lists of words at the front of bytes, and at a place of bytes.

ghost use Rattle.std.specs.Prelude.{◌+◌, ◌*◌, ◌≤◌, length};
ghost use Rattle.std.specs.Int.{w32};
ghost use Rattle.bx_base.specs.Bytes.{words};
ghost use Rattle.bx_base.specs.Reading.{Gives, number_at, list_at};
ghost use Rattle.bx_base.specs.Writing.{Writes};

use bx_base::{ReadError, Words, put_u32, u32_at};
use std::alloc::Global;

/// As many words as are wanted, and the bytes behind them.
pub(crate) fn words_of(alloc: Global, count: u32, bytes: &[u8]) -> Result<(Words, &[u8]), ReadError>
    ensures { Gives (λ x. (x.0, x.1.now)) result (list_at count (number_at w32) bytes.now) }
{
    let mut found = Words::new(alloc);
    let mut rest = bytes;
    for _ in 0..count {
        let (word, after) = u32_at(rest)?;
        found.push(word)?;
        rest = after;
    }
    Ok((found, rest))
}

/// Writes words one after the other, and gives the place behind them.
pub(crate) fn put_words(into: &mut [u8], at: usize, numbers: &[u32]) -> usize
    requires { at + 4 * length numbers.now ≤ length into.old }
    ensures { Writes into.old into.new at result (words numbers.now) }
{
    let mut end = at;
    for number in numbers {
        end = put_u32(into, end, *number);
    }
    end
}
