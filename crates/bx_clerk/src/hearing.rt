//! A clerk hears what the master says.

ghost use Rattle.std.specs.Prelude.{◌≡◌, OnOk};
ghost use Rattle.bx_clerk.specs.Clerks.{Does};
ghost use Rattle.bx_clerk.specs.Events.{answer_of, granted, hear, hear_own, hear_revoke, takes};

use crate::clerk::Clerk;
use crate::learning::is_same;
use crate::requests::{Asking, has_number, is_held};
use bx_base::OutOfMemory;
use bx_lock_words::{Grant, Release, Revoke, Word};

impl Clerk {
    /// Hears what a packet says, where it is of the own session.
    pub(crate) fn hear(
        &mut self,
        reading: u64,
        said: &Option<Word>,
        words: &mut Vec<Word>,
    ) -> Result<(), OutOfMemory>
        ensures { OnOk result (Does (hear reading said.now) self.old self.new words.old.items words.new.items) }
    {
        match said {
            Some(word) if is_same(self.session, Some(word.session())) => {
                self.hear_own(reading, word, words)
            }
            _ => Ok(()),
        }
    }

    /// Hears what is of the own session.
    fn hear_own(
        &mut self,
        reading: u64,
        word: &Word,
        words: &mut Vec<Word>,
    ) -> Result<(), OutOfMemory>
        ensures { OnOk result (Does (hear_own reading word.now) self.old self.new words.old.items words.new.items) }
    {
        match word {
            Word::Grants(grant) => self.hear_grant(reading, grant),
            Word::Revokes(revoke) => self.hear_revoke(revoke, words),
            Word::Leases(_, until) => {
                self.lease = self.lease.max(*until);
                Ok(())
            }
            Word::Wants(_) | Word::Releases(_) | Word::Renews(_) => Ok(()),
        }
    }

    /// Whether a grant is taken: the latest request has its number and is out, and the session lasts.
    fn takes(&self, reading: u64, grant: &Grant) -> bool
        ensures { result ≡ takes reading self.now grant.now }
    {
        let request = self.requests.get(grant.block);
        has_number(&request, grant.number) && !is_held(&request) && reading <= self.lease
    }

    /// Hears a grant.
    fn hear_grant(&mut self, reading: u64, grant: &Grant) -> Result<(), OutOfMemory>
        ensures { OnOk result (self.new ≡ granted reading grant.now self.old) }
    {
        if !self.takes(reading, grant) {
            return Ok(());
        }
        let asking = Asking {
            mode: grant.mode,
            number: grant.number,
            held: Some(grant.index.max(self.given)),
        };
        self.requests.put(grant.block, asking)
    }

    /// Hears a revoke. A block that is held under the number is asked back; else the number is released at once, and a request of that number
    /// is over.
    fn hear_revoke(&mut self, revoke: &Revoke, words: &mut Vec<Word>) -> Result<(), OutOfMemory>
        ensures { OnOk result (Does (hear_revoke revoke.now) self.old self.new words.old.items words.new.items) }
    {
        let request = self.requests.get(revoke.block);
        let fits = has_number(&request, revoke.number);
        if fits && is_held(&request) {
            return self.asks.put(revoke.block, revoke.asking);
        }
        words.push(self.answer_to(revoke))?;
        if fits {
            self.requests.take_out(revoke.block);
            self.asks.drop_block(revoke.block);
        }
        Ok(())
    }

    /// The release of a number under which nothing is held.
    fn answer_to(&self, revoke: &Revoke) -> Word
        ensures { result ≡ answer_of self.now revoke.now }
    {
        Word::Releases(Release {
            session: revoke.session,
            block: revoke.block,
            number: revoke.number,
            index: self.knows.max(self.given),
        })
    }
}
