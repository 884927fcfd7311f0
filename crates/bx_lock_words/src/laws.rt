//! What holds of the bytes of words.

ghost use Rattle.std.specs.Prelude.{◌≡◌, ℕ, List};
ghost use Rattle.bx_lock_words.specs.Words.{IsWord, Spells, body_text, kind_of};
ghost use Rattle.bx_lock_words.specs.declared.words.Word.{Word};

/// What is written of a word whose numbers have eight bytes is read as that word.
pub fn written_reads()
    ensures { (word : Word) → IsWord word → Spells word (kind_of word) (body_text word) }
{}

/// A kind and a body are never two words.
pub fn one_word()
    ensures { (a b : Word) (kind : ℕ) (body : List ℕ) → Spells a kind body → Spells b kind body → a ≡ b }
{}
