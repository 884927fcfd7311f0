//! Fields of lines, and the numbers that they spell.

ghost use Rattle.std.specs.Prelude.{◌≡◌, ◌<◌, ◌≤◌, ◌==◌, ◌^◌, if◌then◌else◌, nat_lt, IsTrue, None, Some, length, position, IfSome};
ghost use Rattle.std.specs.List.{list_all};
ghost use Rattle.std.specs.Char.{is_ascii_digit};
ghost use Rattle.std.specs.Str.Parse.{digits_value};
ghost use Rattle.bx_script.specs.Reading.{Gives, cut, is_numeral, number_at, number_of};

use std::str;

/// A number of 32 bits up to the most and a space, and the bytes after them.
pub(crate) fn word_at(text: &[u8], most: u32) -> Option<(u32, &[u8])>
    ensures { Gives (λ x. (x.0, x.1.now)) result (number_at most text.now) }
{
    let (number, rest) = number_at(text, u64::from(most))?;
    Some((number as u32, rest))
}

/// A number up to the most and a space, and the bytes after them.
#[tactic(auto, unfolding(crate::specs::Reading::number_at))]
pub(crate) fn number_at(text: &[u8], most: u64) -> Option<(u64, &[u8])>
    ensures value { Gives (λ x. (x.0, x.1.now)) result (number_at most text.now) }
    ensures within { IfSome result (λ x. x.0 ≤ most) }
{
    let (field, rest) = cut(text)?;
    Some((number(field, most)?, rest))
}

/// The number of 32 bits, up to the most, that a field spells.
pub(crate) fn word(field: &[u8], most: u32) -> Option<u32>
    ensures value { result ≡ number_of most field.now }
    ensures within { IfSome result (λ n. n ≤ most) }
{
    Some(number(field, u64::from(most))? as u32)
}

/// The number that a field spells, up to the most.
#[tactic(auto, unfolding(crate::specs::Reading::number_of))]
pub(crate) fn number(field: &[u8], most: u64) -> Option<u64>
    ensures value { result ≡ number_of most field.now }
    ensures within { IfSome result (λ n. n ≤ most) }
{
    if !is_numeral(field) {
        return None;
    }
    let number = digits(field)?;
    if number <= most { Some(number) } else { None }
}

/// The number that digits spell, where it has 64 bits.
fn digits(field: &[u8]) -> Option<u64>
    requires { IsTrue (is_numeral field.now) }
    ensures { result ≡ (if nat_lt (digits_value 10 field.now) (2 ^ 64) then Some (digits_value 10 field.now) else None) }
{
    let Ok(text) = str::from_utf8(field) else {
        return None;
    };
    text.parse().ok()
}

/// Whether a field is a number without leading zeros.
#[tactic(auto, unfolding(crate::specs::Reading::is_numeral))]
fn is_numeral(field: &[u8]) -> bool
    ensures { result ≡ is_numeral field.now }
{
    let leading_zero = field.len() > 1 && field[0] == b'0';
    !field.is_empty() && !leading_zero && are_digits(field)
}

/// Whether each byte is a decimal digit.
fn are_digits(field: &[u8]) -> bool
    ensures { result ≡ list_all is_ascii_digit field.now }
{
    field.iter().all(u8::is_ascii_digit)
}

/// The bytes before the first space, and those after it.
#[tactic(auto, unfolding(crate::specs::Reading::cut))]
pub(crate) fn cut(text: &[u8]) -> Option<(&[u8], &[u8])>
    ensures { Gives (λ x. (x.0.now, x.1.now)) result (cut text.now) }
{
    let at = space_at(text)?;
    Some((&text[..at], &text[at + 1..]))
}

/// Where the first space is.
fn space_at(text: &[u8]) -> Option<usize>
    ensures value { result ≡ position (λ c. c == 32) text.now }
    ensures within { IfSome result (λ at. at < length text.now) }
{
    text.iter().position(|c| *c == b' ')
}
