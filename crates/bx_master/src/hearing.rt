//! The master hears what nodes say.

ghost use Rattle.std.specs.Prelude.{◌≡◌, OnOk};
ghost use Rattle.bx_master.specs.Events.{end_for, fits, freeing, hear, hear_as, hear_release, hear_renew, hear_want, let_go, may_speak, new_end, released, until_in, wanted};
ghost use Rattle.bx_master.specs.Masters.{Does};

use crate::master::Master;
use bx_base::OutOfMemory;
use bx_global::GlobalState;
use bx_lock_tables::{
    Row, Verdict, is_expiring, is_live, list_row, note_end, noted_end, push_revokes, row_for,
    rows_at,
};
use bx_lock_words::{Release, Want, Word};
use bx_rows::{SessionRow, find_row};

/// How much longer a session lasts that is renewed, in milliseconds.
const LEASE: u64 = 4000;

/// Whether a row stands by this number.
fn stands_by(number: u64, row: &Option<Row>) -> bool
    ensures { result ≡ fits number row.now }
{
    match row {
        None => false,
        Some(row) => row.stands && row.number == number,
    }
}

/// The end that a row has, 0 where there is none.
fn until_of(row: &Option<SessionRow>) -> u64
    ensures { result ≡ until_in row.now }
{
    match row {
        None => 0,
        Some(row) => row.until,
    }
}

impl Master {
    /// Hears a packet, where it is the master.
    pub(crate) fn hear_as(
        &mut self,
        known: &GlobalState,
        reading: u64,
        said: &Option<Word>,
        words: &mut Vec<Word>,
    ) -> Result<(), OutOfMemory>
        ensures { OnOk result (Does (hear_as known.now reading said.now) self.old self.new words.old.items words.new.items) }
    {
        match said {
            Some(word) if self.is_master(known) => self.hear(known, reading, word, words),
            _ => Ok(()),
        }
    }

    /// Hears what a node says.
    fn hear(
        &mut self,
        known: &GlobalState,
        reading: u64,
        word: &Word,
        words: &mut Vec<Word>,
    ) -> Result<(), OutOfMemory>
        ensures { OnOk result (Does (hear known.now reading word.now) self.old self.new words.old.items words.new.items) }
    {
        match word {
            Word::Wants(want) => self.hear_want(known, reading, want, words),
            Word::Releases(release) => self.hear_release(known, reading, release, words),
            Word::Renews(session) => self.hear_renew(known, reading, *session, words),
            Word::Grants(_) | Word::Revokes(_) | Word::Leases(_, _) => Ok(()),
        }
    }

    /// Hears a want: it is granted, waits, or is passed over.
    fn hear_want(
        &mut self,
        known: &GlobalState,
        reading: u64,
        want: &Want,
        words: &mut Vec<Word>,
    ) -> Result<(), OutOfMemory>
        ensures { OnOk result (Does (hear_want known.now reading want.now) self.old self.new words.old.items words.new.items) }
    {
        let verdict = self.judged(known, reading, want)?;
        self.answer(&verdict, known, want, words)
    }

    /// Answers a want. While it waits, all that stands against it is asked back.
    fn answer(
        &mut self,
        verdict: &Verdict,
        known: &GlobalState,
        want: &Want,
        words: &mut Vec<Word>,
    ) -> Result<(), OutOfMemory>
        ensures { OnOk result (Does (wanted verdict.now known.now want.now) self.old self.new words.old.items words.new.items) }
    {
        match verdict {
            Verdict::Refuses => Ok(()),
            Verdict::Waits => {
                let rows = rows_at(self.alloc, &self.accounts, want.block)?;
                self.waiting.enqueue(want)?;
                push_revokes(known, &rows, want, words)
            }
            Verdict::Grants(row) => {
                self.grant(want, *row, words)?;
                self.waiting.drop_request(want);
                Ok(())
            }
        }
    }

    /// Whether a session lives whose expiry it didn't ask for.
    fn may_speak(&self, known: &GlobalState, session: u64) -> bool
        ensures { result ≡ may_speak known.now session self.now }
    {
        is_live(known, session) && !is_expiring(&self.accounts, session)
    }

    /// Hears a release: the next grants carry its index, and where the number stands it stands no more, and the wants of the block are served.
    fn hear_release(
        &mut self,
        known: &GlobalState,
        reading: u64,
        release: &Release,
        words: &mut Vec<Word>,
    ) -> Result<(), OutOfMemory>
        ensures { OnOk result (Does (hear_release known.now reading release.now) self.old self.new words.old.items words.new.items) }
    {
        if !self.may_speak(known, release.session) {
            return Ok(());
        }
        let row = row_for(&self.accounts, release.session, release.block);
        self.index = self.index.max(release.index);
        self.release(known, reading, release, &row, words)
    }

    /// Lets go of a row, where it stands by the number that is released.
    fn release(
        &mut self,
        known: &GlobalState,
        reading: u64,
        release: &Release,
        row: &Option<Row>,
        words: &mut Vec<Word>,
    ) -> Result<(), OutOfMemory>
        ensures { OnOk result (Does (released known.now reading release.now row.now) self.old self.new words.old.items words.new.items) }
    {
        if !stands_by(release.number, row) {
            return Ok(());
        }
        self.free(release, row)?;
        self.serve(known, reading, Some(release.block), words)
    }

    /// The row that is released stands no more.
    fn free(&mut self, release: &Release, row: &Option<Row>) -> Result<(), OutOfMemory>
        ensures { OnOk result (self.new ≡ freeing release.now row.now self.old) }
    {
        let Some(row) = row else {
            return Ok(());
        };
        let row = Row {
            stands: false,
            ..*row
        };
        list_row(
            self.alloc,
            &mut self.accounts,
            release.session,
            release.block,
            row,
        )
    }

    /// The end of a session, in milliseconds: the one that was promised last, and at least that of its row.
    pub(crate) fn end_for(&self, known: &GlobalState, session: u64) -> u64
        ensures { result ≡ end_for known.now session self.now }
    {
        let row = find_row(known.sessions.items(), session);
        noted_end(&self.accounts, session).max(until_of(&row))
    }

    /// Hears that a session is to last longer: it does, but no longer than the term.
    fn hear_renew(
        &mut self,
        known: &GlobalState,
        reading: u64,
        session: u64,
        words: &mut Vec<Word>,
    ) -> Result<(), OutOfMemory>
        ensures { OnOk result (Does (hear_renew known.now reading session) self.old self.new words.old.items words.new.items) }
    {
        if !self.may_speak(known, session) {
            return Ok(());
        }
        let end = self.new_end(known, reading, session);
        note_end(self.alloc, &mut self.accounts, session, end)?;
        words.push(Word::Leases(session, end))?;
        Ok(())
    }

    /// The end that is promised to a session now, in milliseconds.
    fn new_end(&self, known: &GlobalState, reading: u64, session: u64) -> u64
        ensures { result ≡ new_end known.now reading session self.now }
    {
        let end = reading.saturating_add(LEASE).min(known.term_end);
        self.end_for(known, session).max(end)
    }
}
