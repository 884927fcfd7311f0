//! Reading what is said.

ghost use Rattle.std.specs.Prelude.{◌≡◌, IfErr, MatchOption};
ghost use Rattle.bx_base.specs.Reading.{Gives};
ghost use Rattle.bx_base.specs.declared.error.ReadError.TheVariants.{Malformed};
ghost use Rattle.bx_lock_words.specs.Reading.{word_at};
ghost use Rattle.bx_lock_words.specs.Words.{Spells};
ghost use Rattle.bx_lock_words.specs.declared.words.Word.{Word};

use crate::parts::{grant_of, numbers_of, release_of, revoke_of, want_of};
use crate::words::Word;
use bx_base::{ReadError, u64_at};

impl Word {
    /// What a packet of this kind and body says. `None` exactly where that is nothing: the kind is none of the lock service's, or
    /// the body isn't the bytes of such a word. It takes no memory.
    pub fn read(kind: u8, body: &[u8]) -> Option<Word>
        ensures { MatchOption result ((word : Word) → Spells word kind body.now → ⊥) (λ word. Spells word kind body.now) }
    {
        let Ok((word, rest)) = word_of(kind, body) else {
            return None;
        };
        if !rest.is_empty() {
            return None;
        }
        Some(word)
    }
}

/// What stands at the front of a body of this kind, and the bytes behind it.
#[tactic(auto, unfolding(crate::specs::Reading::word_at))]
fn word_of(kind: u8, body: &[u8]) -> Result<(Word, &[u8]), ReadError>
    ensures value { Gives (λ x. (x.0, x.1.now)) result (word_at kind body.now) }
    ensures cause { IfErr result (λ error. error ≡ Malformed) }
{
    match kind {
        8 => {
            let (want, rest) = want_of(body)?;
            Ok((Word::Wants(want), rest))
        }
        9 => {
            let (grant, rest) = grant_of(body)?;
            Ok((Word::Grants(grant), rest))
        }
        10 => {
            let (revoke, rest) = revoke_of(body)?;
            Ok((Word::Revokes(revoke), rest))
        }
        11 => {
            let (release, rest) = release_of(body)?;
            Ok((Word::Releases(release), rest))
        }
        12 => {
            let (session, rest) = u64_at(body)?;
            Ok((Word::Renews(session), rest))
        }
        13 => {
            let ((session, until), rest) = numbers_of(body)?;
            Ok((Word::Leases(session, until), rest))
        }
        _ => Err(ReadError::Malformed),
    }
}
