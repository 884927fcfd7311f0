//! A lock server learns a state.

ghost use Rattle.std.specs.Prelude.{◌≡◌, OnOk};
ghost use Rattle.bx_master.specs.Events.{catch_up};
ghost use Rattle.bx_master.specs.Masters.{Does, entered, is_master, is_term, last_dead_in, later, learned, shows_close};

use crate::master::Master;
use bx_base::OutOfMemory;
use bx_global::GlobalState;
use bx_lock_tables::forget;
use bx_lock_words::Word;
use bx_rows::SessionRow;

/// The greatest number of a dead session.
pub(crate) fn last_dead(rows: &[SessionRow]) -> Option<u64>
    ensures { result ≡ last_dead_in None rows.now }
{
    let mut last = None;
    for row in rows {
        if row.dead != 0 {
            last = Some(later_of(row.number, last));
        }
    }
    last
}

/// The later of two sessions, of which the second may be none.
fn later_of(session: u64, last: Option<u64>) -> u64
    ensures { result ≡ later session last }
{
    match last {
        None => session,
        Some(last) => session.max(last),
    }
}

/// Whether sessions were closed since the last state, by its count of rows and its next session.
fn closes(seen: &Option<(u64, u64)>, known: &GlobalState) -> bool
    ensures { result ≡ shows_close seen.now known.now }
{
    let Some((rows, next_session)) = seen else {
        return true;
    };
    // In 128 bits, since the next session may be any number.
    let left = known.sessions.len() as u128 + *next_session as u128;
    left < *rows as u128 + known.next_session as u128
}

impl Master {
    /// Whether it is the master of its boot in a state.
    pub(crate) fn is_master(&self, known: &GlobalState) -> bool
        ensures { result ≡ is_master self.now known.now }
    {
        known.master == self.server && known.master_boot == self.boot
    }

    /// Whether a term is that of the last state.
    fn is_term(&self, term: u64) -> bool
        ensures { result ≡ is_term self.now.term term }
    {
        match self.term {
            None => false,
            Some(old) => old == term,
        }
    }

    /// Learns a state. The first one of a term leaves nothing listed; a later one drops what sessions without a row had. Where sessions
    /// were closed, the next grants carry its index.
    fn learn(&mut self, known: &GlobalState)
        ensures { self.new ≡ learned known.now self.old }
    {
        if closes(&self.seen, known) {
            self.index = self.index.max(known.index);
        }
        self.seen = Some((known.sessions.len() as u64, known.next_session));
        if self.is_term(known.term) {
            forget(&mut self.accounts, known);
        } else {
            self.enter(known);
        }
    }

    /// Enters a term, of which this is the first state that it knows.
    fn enter(&mut self, known: &GlobalState)
        ensures { self.new ≡ entered known.now self.old }
    {
        self.term = Some(known.term);
        self.last_dead = last_dead(known.sessions.items());
        self.accounts.clear();
        self.waiting.clear();
    }

    /// Learns a state. Where that shows that sessions were closed, the master serves all wants that wait.
    pub(crate) fn catch_up(
        &mut self,
        known: &GlobalState,
        reading: u64,
        words: &mut Vec<Word>,
    ) -> Result<(), OutOfMemory>
        ensures { OnOk result (Does (catch_up known.now reading) self.old self.new words.old.items words.new.items) }
    {
        let shows = closes(&self.seen, known);
        self.learn(known);
        if shows && self.is_master(known) {
            self.serve(known, reading, None, words)?;
        }
        Ok(())
    }
}
