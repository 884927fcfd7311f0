//! Answers of a member.

ghost use Rattle.std.specs.Prelude.{◌≡◌, ◌++◌, OnOk};
ghost use Rattle.bx_mirror_member.specs.Steps.{Repeats, owed_letters, owing, released, with_piece, with_write, wrote_to};

use crate::member::Member;
use bx_base::{Actor, OutOfMemory};
use bx_facts::Outbox;
use bx_mirror_packets::{CopiedBody, WriteBody, WroteBody};
use bx_mirror_tables::{Answer, Owing, is_owed, noted, owe, send_all, send_answer};

/// The answer to a write.
fn answer_to(from: Actor, write: &WriteBody) -> Owing
    ensures { result ≡ owing from (wrote_to write.now) }
{
    Owing {
        to: from,
        answer: Answer::Wrote(WroteBody {
            session: write.session,
            device: write.device,
            epoch: write.epoch,
            sequence: write.sequence,
        }),
    }
}

impl Member {
    /// Notes a write that stands on the disk; its answer waits for a sync, also where nothing had to be written.
    pub fn note_write(&mut self, from: Actor, write: &WriteBody) -> Result<(), OutOfMemory>
        ensures { OnOk result (self.new ≡ with_write from write.now self.old) }
    {
        self.lasts = noted(
            self.alloc,
            self.lasts.as_slice(),
            write.session,
            write.sequence,
        )?;
        owe(&mut self.owed, answer_to(from, write))?;
        self.due = true;
        Ok(())
    }

    /// Answers a write again that came before: at once, or with the sync that is owed, and then once.
    pub fn repeat(
        &mut self,
        from: Actor,
        write: &WriteBody,
        out: &mut Outbox,
    ) -> Result<(), OutOfMemory>
        ensures { OnOk result (Repeats from write.now self.old self.new out.old out.new) }
    {
        let owing = answer_to(from, write);
        if !self.due {
            return send_answer(self.alloc, self.number, &owing, out);
        }
        if is_owed(self.owed.as_slice(), &owing) {
            return Ok(());
        }
        owe(&mut self.owed, owing)
    }

    /// Notes a piece of a copy that stands on the disk; its answer waits for a sync.
    pub fn note_piece(&mut self, from: Actor, copied: CopiedBody) -> Result<(), OutOfMemory>
        ensures { OnOk result (self.new ≡ with_piece from copied self.old) }
    {
        let owing = Owing {
            to: from,
            answer: Answer::Copied(copied),
        };
        owe(&mut self.owed, owing)?;
        self.due = true;
        Ok(())
    }

    /// Sends all answers that it owes, in their order: the disk was synced.
    pub fn release(&mut self, out: &mut Outbox) -> Result<(), OutOfMemory>
        ensures releases { OnOk result (self.new ≡ released self.old) }
        ensures sends { OnOk result (out.new ≡ out.old ++ owed_letters self.old) }
    {
        send_all(self.alloc, self.number, self.owed.as_slice(), out)?;
        self.owed.clear();
        self.due = false;
        Ok(())
    }
}
