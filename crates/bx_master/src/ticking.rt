//! What a lock server does at a tick.

ghost use Rattle.std.specs.Prelude.{◌≡◌, ◌+◌, ◌++◌, ltb, OnOk};
ghost use Rattle.bx_master.specs.Events.{change_of, expiry, first_past, is_past, revokes_again, take_change, tick};
ghost use Rattle.bx_master.specs.Masters.{Does};

use crate::master::Master;
use bx_base::OutOfMemory;
use bx_global::{Change, GlobalState};
use bx_lock_tables::{push_revokes, rows_at};
use bx_lock_words::{Want, Word};
use bx_rows::SessionRow;

/// By how much clocks may differ, in milliseconds.
const SKEW: u64 = 500;

/// So long before the end of its term the master asks for a longer one, in milliseconds.
const AHEAD: u64 = 4000;

/// Whether an end is past for every clock.
fn is_over(end: u64, reading: u64) -> bool
    ensures { result ≡ ltb (end + 500) reading }
{
    end < reading && reading - end > SKEW
}

impl Master {
    /// Wants of sessions that don't live are dropped; what stands against the others is asked back again. Only the master does so.
    pub(crate) fn tick(
        &mut self,
        known: &GlobalState,
        words: &mut Vec<Word>,
    ) -> Result<(), OutOfMemory>
        ensures { OnOk result (Does (tick known.now) self.old self.new words.old.items words.new.items) }
    {
        if !self.is_master(known) {
            return Ok(());
        }
        self.waiting.keep_live(known)?;
        let wants = self.waiting.all()?;
        self.revoke_again(known, wants.as_slice(), words)
    }

    /// Asks for all back that stands against these wants.
    fn revoke_again(
        &self,
        known: &GlobalState,
        wants: &[Want],
        words: &mut Vec<Word>,
    ) -> Result<(), OutOfMemory>
        ensures { OnOk result (words.new.items ≡ words.old.items ++ revokes_again known.now self.now.accounts wants.now) }
    {
        for want in wants {
            let rows = rows_at(self.alloc, &self.accounts, want.block)?;
            push_revokes(known, &rows, want, words)?;
        }
        Ok(())
    }

    /// The change that it must propose: the master a longer term in good time, else the expiry of a session; each server that it is the master
    /// once the term is past.
    pub(crate) fn change_of(&self, known: &GlobalState, reading: u64) -> Option<Change>
        ensures { result ≡ change_of known.now reading self.now }
    {
        if !self.is_master(known) {
            return self.take_change(known, reading);
        }
        if reading <= known.term_end && known.term_end - reading < AHEAD {
            return Some(Change::Renew {
                by: self.server,
                boot: self.boot,
                reading,
            });
        }
        match self.first_past(known, reading) {
            None => self.take_change(known, reading),
            Some(session) => Some(Change::Expire {
                session,
                term: known.term,
                reading,
            }),
        }
    }

    /// A term of its own, once the last one is past.
    fn take_change(&self, known: &GlobalState, reading: u64) -> Option<Change>
        ensures { result ≡ take_change known.now reading self.now }
    {
        if !is_over(known.term_end, reading) {
            return None;
        }
        Some(Change::Take {
            by: self.server,
            boot: self.boot,
            reading,
        })
    }

    /// The least live session whose end is past.
    fn first_past(&self, known: &GlobalState, reading: u64) -> Option<u64>
        ensures { result ≡ first_past known.now reading self.now known.now.sessions }
    {
        for row in known.sessions.items() {
            if self.is_past(known, reading, row) {
                return Some(row.number);
            }
        }
        None
    }

    /// Whether a row is that of a live session whose end is past.
    fn is_past(&self, known: &GlobalState, reading: u64, row: &SessionRow) -> bool
        ensures { result ≡ is_past known.now reading self.now row.now }
    {
        row.dead == 0 && is_over(self.end_for(known, row.number), reading)
    }
}
