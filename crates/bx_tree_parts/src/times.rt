//! Words that a client sets, and times among them.

ghost use Rattle.std.specs.Prelude.{◌≡◌, if◌then◌else◌};
ghost use Rattle.bx_tree_parts.specs.Times.{is_given as is_given_word, stored as stored_time};

/// A word of the attributes to set that leaves a field alone.
const LEFT_ALONE: u32 = 4294967295;

/// The most microseconds.
const MOST_MICROSECONDS: u32 = 999999;

/// Whether a word of the attributes to set is given.
pub fn is_given(word: u32) -> bool
    ensures { result ≡ is_given_word word }
{
    word != LEFT_ALONE
}

/// What is stored of a time that is given.
pub fn stored(time: (u32, u32)) -> (u32, u32)
    ensures { result ≡ stored_time time }
{
    if time.1 <= MOST_MICROSECONDS {
        time
    } else {
        (time.0, 0)
    }
}

/// The new value where a word is given, else the old one.
pub fn given_or(word: u32, new: u32, old: u32) -> u32
    ensures { result ≡ (if is_given_word word then new else old) }
{
    if is_given(word) { new } else { old }
}

/// The time that is stored where one is given, else the old one.
pub fn time_or(time: (u32, u32), old: (u32, u32)) -> (u32, u32)
    ensures { result ≡ (if is_given_word time.0 then stored_time time else old) }
{
    if is_given(time.0) { stored(time) } else { old }
}
