//! Lines of fields, put behind a text.

ghost use Rattle.std.specs.Prelude.{◌≡◌, ◌+◌, ◌*◌, ◌≤◌, ◌∷◌, ◌++◌, length, decimal, IfSome, OnOk, OnErr, vec_len, vec_capacity};
ghost use Rattle.bx_base.specs.Bytes.{IsBytes};
ghost use Rattle.bx_base.specs.Text.{ended, spaced};
ghost use Rattle.hex.specs.Hex.{encode_lower};
ghost use Rattle.bx_script.specs.TraceText.{fields_of};

use bx_base::OutOfMemory;

/// The most bytes of a number of 64 bits with the space before it.
const MAX_NUMBER: usize = 21;

/// The hex digits.
const DIGITS: [u8; 16] = *b"0123456789abcdef";

/// Puts a line behind a text, with its line feed: a word of at most five bytes, at most three numbers, and bytes in hex.
/// Without memory the text is as it was.
pub fn put_line(
    text: &mut Vec<u8>,
    word: &[u8],
    numbers: &[u64],
    bytes: &[u8],
) -> Result<(), OutOfMemory>
    requires short { length word.now ≤ 5 }
    requires few { length numbers.now ≤ 3 }
    ensures ok { OnOk result (text.new.items ≡ text.old.items ++ ended (spaced (fields_of word.now numbers.now bytes.now))) }
    ensures err { OnErr result (text.new.items ≡ text.old.items) }
    ensures bytes { IsBytes bytes.now }
{
    let Some(room) = room_for(bytes.len()) else {
        return Err(OutOfMemory);
    };
    text.reserve(room)?;
    put_bytes(text, word);
    for number in numbers {
        put_number(text, *number);
    }
    text.push_reserved(b' ');
    put_hex(text, bytes);
    text.push_reserved(b'\n');
    Ok(())
}

// How long a line with so many bytes may be: a word, three numbers, a space, two digits a byte and a line feed.
fn room_for(bytes: usize) -> Option<usize>
    ensures { IfSome result (λ room. room ≡ 2 * bytes + 70) }
{
    bytes.checked_mul(2)?.checked_add(5 + 3 * MAX_NUMBER + 2)
}

// Puts a space and the digits of a number behind a text.
fn put_number(text: &mut Vec<u8>, number: u64)
    requires { vec_len text.old + MAX_NUMBER ≤ vec_capacity text.old }
    ensures items { text.new.items ≡ text.old.items ++ 32 ∷ decimal number }
    ensures len { vec_len text.new ≤ vec_len text.old + MAX_NUMBER }
    ensures capacity { vec_capacity text.new ≡ vec_capacity text.old }
{
    let mut digits = [0; MAX_NUMBER - 1];
    let start = itoa::write_digits(number, &mut digits, MAX_NUMBER - 1);
    text.push_reserved(b' ');
    put_bytes(text, &digits[start..]);
}

// Puts bytes behind a text.
fn put_bytes(text: &mut Vec<u8>, bytes: &[u8])
    requires { vec_len text.old + length bytes.now ≤ vec_capacity text.old }
    ensures items { text.new.items ≡ text.old.items ++ bytes.now }
    ensures len { vec_len text.new ≡ vec_len text.old + length bytes.now }
    ensures capacity { vec_capacity text.new ≡ vec_capacity text.old }
{
    for byte in bytes {
        text.push_reserved(*byte);
    }
}

// Puts the two digits of each byte behind a text.
fn put_hex(text: &mut Vec<u8>, bytes: &[u8])
    requires { vec_len text.old + 2 * length bytes.now ≤ vec_capacity text.old }
    ensures items { text.new.items ≡ text.old.items ++ encode_lower bytes.now }
    ensures len { vec_len text.new ≡ vec_len text.old + 2 * length bytes.now }
    ensures capacity { vec_capacity text.new ≡ vec_capacity text.old }
{
    for byte in bytes {
        text.push_reserved(DIGITS[usize::from(*byte / 16)]);
        text.push_reserved(DIGITS[usize::from(*byte % 16)]);
    }
}
