//! The master serves the wants that wait.

ghost use Rattle.std.specs.Prelude.{◌≡◌, ◌++◌, ◌∷◌, [], IfOk, OnOk};
ghost use Rattle.bx_lock_words.specs.declared.words.Word.TheVariants.{Grants};
ghost use Rattle.bx_lock_tables.specs.Queue.{AreOnce};
ghost use Rattle.bx_master.specs.Events.{grant_of, served, verdict_on};
ghost use Rattle.bx_master.specs.Masters.{Does, listing};
ghost use Rattle.bx_master.specs.Serving.{concerned, settled, settling, settling_one};

use crate::master::Master;
use bx_base::OutOfMemory;
use bx_global::GlobalState;
use bx_lock_tables::{Row, Verdict, judge, list_row, rows_at};
use bx_lock_words::{Grant, Want, Word};

/// What says that a row was granted.
fn grant_of(block: u64, row: &Row) -> Grant
    ensures { result ≡ grant_of block row.now }
{
    Grant {
        session: row.session,
        block,
        mode: row.mode,
        number: row.number,
        index: row.index,
    }
}

impl Master {
    /// What becomes of a want now.
    pub(crate) fn judged(
        &self,
        known: &GlobalState,
        reading: u64,
        want: &Want,
    ) -> Result<Verdict, OutOfMemory>
        ensures { IfOk result (λ verdict. verdict ≡ verdict_on known.now reading want.now self.now) }
    {
        let rows = rows_at(self.alloc, &self.accounts, want.block)?;
        Ok(judge(known, self.last_dead, self.index, reading, &rows, want))
    }

    /// Grants a want: a row is listed, and told.
    pub(crate) fn grant(
        &mut self,
        want: &Want,
        row: Row,
        words: &mut Vec<Word>,
    ) -> Result<(), OutOfMemory>
        ensures lists { OnOk result (self.new ≡ listing want.now row self.old) }
        ensures says { OnOk result (words.new.items ≡ words.old.items ++ Grants (grant_of want.now.block row) ∷ []) }
    {
        list_row(
            self.alloc,
            &mut self.accounts,
            want.session,
            want.block,
            row,
        )?;
        words.push(Word::Grants(grant_of(want.block, &row)))?;
        Ok(())
    }

    /// Settles a want that waits, after this verdict: it goes where it is granted or passed over.
    fn settle(
        &mut self,
        verdict: &Verdict,
        want: &Want,
        words: &mut Vec<Word>,
    ) -> Result<(), OutOfMemory>
        ensures { OnOk result (Does (settled verdict.now want.now) self.old self.new words.old.items words.new.items) }
    {
        match verdict {
            Verdict::Waits => return Ok(()),
            Verdict::Refuses => {}
            Verdict::Grants(row) => self.grant(want, *row, words)?,
        }
        self.waiting.drop_request(want);
        Ok(())
    }

    /// Tries a want that waits.
    fn serve_one(
        &mut self,
        known: &GlobalState,
        reading: u64,
        want: &Want,
        words: &mut Vec<Word>,
    ) -> Result<(), OutOfMemory>
        ensures { OnOk result (Does (settling_one known.now reading want.now) self.old self.new words.old.items words.new.items) }
    {
        let verdict = self.judged(known, reading, want)?;
        self.settle(&verdict, want, words)
    }

    /// Tries these wants, each in its turn.
    fn serve_all(
        &mut self,
        known: &GlobalState,
        reading: u64,
        wants: &[Want],
        words: &mut Vec<Word>,
    ) -> Result<(), OutOfMemory>
        ensures { OnOk result (Does (settling known.now reading wants.now) self.old self.new words.old.items words.new.items) }
    {
        for want in wants {
            self.serve_one(known, reading, want, words)?;
        }
        Ok(())
    }

    /// The wants that wait for any block, or for one.
    fn concerned(&self, only: Option<u64>) -> Result<Vec<Want>, OutOfMemory>
        ensures is { IfOk result (λ wants. wants.items ≡ concerned only self.now.waiting) }
        ensures once { AreOnce self.now.waiting }
    {
        match only {
            None => self.waiting.all(),
            Some(block) => self.waiting.at_block(block),
        }
    }

    /// Serves the wants that wait, of all blocks or of one: each is tried, in their order.
    pub(crate) fn serve(
        &mut self,
        known: &GlobalState,
        reading: u64,
        only: Option<u64>,
        words: &mut Vec<Word>,
    ) -> Result<(), OutOfMemory>
        ensures { OnOk result (Does (served known.now reading only) self.old self.new words.old.items words.new.items) }
    {
        let wants = self.concerned(only)?;
        self.serve_all(known, reading, wants.as_slice(), words)
    }
}
