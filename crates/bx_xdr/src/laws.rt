//! Laws of the items.

ghost use Rattle.std.specs.Prelude.{ℕ, ◌^◌, ◌<◌, ◌≤◌, List, length};
ghost use Rattle.bx_base.specs.Bytes.{words};
ghost use Rattle.bx_xdr.specs.Items.{AreWords, SpellsWord, SpellsWords, SpellsFixed, SpellsOpaque, SpellsList, HasOneReading, word_text, fixed_text, opaque_text};

/// A text begins with one item of a kind at most, and one rest is behind it: so items one after the other have one
/// reading.
pub fn one_reading()
    ensures word { HasOneReading SpellsWord }
    ensures words { (n : ℕ) → HasOneReading (SpellsWords n) }
    ensures fixed { (n : ℕ) → HasOneReading (SpellsFixed n) }
    ensures opaque { (max : ℕ) → HasOneReading (SpellsOpaque max) }
    ensures list { (max : ℕ) → HasOneReading (SpellsList max) }
{}

/// What is written is a spelling.
pub fn written_reads()
    ensures word { (word : ℕ) → word < 2 ^ 32 → SpellsWord word (word_text word) }
    ensures words { (numbers : List ℕ) → AreWords numbers → SpellsWords (length numbers) numbers (words numbers) }
    ensures fixed { (content : List ℕ) → SpellsFixed (length content) content (fixed_text content) }
    ensures opaque { (max : ℕ) (content : List ℕ) → length content ≤ max → length content < 2 ^ 32 → SpellsOpaque max content (opaque_text content) }
{}
