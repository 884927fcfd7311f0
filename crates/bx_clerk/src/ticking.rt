//! What a clerk says at a tick.

ghost use Rattle.std.specs.Prelude.{◌≡◌, Some, IfOk};
ghost use Rattle.bx_clerk.specs.Events.{tick_words, want_again};

use crate::requests::{Asking, Requests};
use bx_base::OutOfMemory;
use bx_lock_words::{Want, Word};
use std::alloc::Global;

/// A request that is out, as it is sent again.
fn want_again(session: u64, block: u64, request: &Asking) -> Option<Word>
    ensures { result ≡ want_again session (block, request.now) }
{
    match request.held {
        Some(_) => None,
        None => Some(Word::Wants(Want {
            session,
            block,
            mode: request.mode,
            number: request.number,
        })),
    }
}

/// That the session is to last longer, and each request that is out.
pub(crate) fn tick_words(
    alloc: Global,
    session: u64,
    requests: &Requests,
) -> Result<Vec<Word>, OutOfMemory>
    ensures { IfOk result (λ words. words.items ≡ tick_words (Some session) requests.now) }
{
    let mut words = Vec::new(alloc);
    words.push(Word::Renews(session))?;
    for entry in requests.iter() {
        if let Some(word) = want_again(session, entry.0, &entry.1) {
            words.push(word)?;
        }
    }
    Ok(words)
}
