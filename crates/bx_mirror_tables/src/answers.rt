//! Answers that wait for a sync.

ghost use Rattle.std.specs.Prelude.{◌≡◌, ◌↔◌, ◌++◌, ◌∷◌, [], Contains, IsTrue, OnErr, OnOk, map};
ghost use Rattle.bx_base.specs.declared.names.Actor.TheVariants.{Member};
ghost use Rattle.bx_mirror_packets.specs.DeviceMessages.{letter_with};
ghost use Rattle.bx_mirror_tables.specs.Owed.{message_of};

use bx_base::{Actor, OutOfMemory};
use bx_mirror_packets::{CopiedBody, DeviceMessage, WroteBody, send};
use bx_post::Outbox;
use std::alloc::Global;

/// What is answered.
#[derive(Clone, Copy, PartialEq, Eq)]
pub enum Answer {
    /// A write was taken.
    Wrote(WroteBody),
    /// A piece of a copy was taken.
    Copied(CopiedBody),
}

/// An answer, and who waits for it.
#[derive(Clone, Copy, PartialEq, Eq)]
pub struct Owing {
    /// Who waits.
    pub to: Actor,
    /// The answer.
    pub answer: Answer,
}

impl Answer {
    /// The message that says it.
    fn message(&self) -> DeviceMessage
        ensures { result ≡ message_of self.now }
    {
        match *self {
            Answer::Wrote(wrote) => DeviceMessage::Wrote(wrote),
            Answer::Copied(copied) => DeviceMessage::Copied(copied),
        }
    }
}

/// Puts an answer at the end of those that are owed. Where memory runs out, nothing changes.
pub fn owe(owed: &mut Vec<Owing>, owing: Owing) -> Result<(), OutOfMemory>
    ensures ok { OnOk result (owed.new.items ≡ owed.old.items ++ owing ∷ []) }
    ensures err { OnErr result (owed.new.items ≡ owed.old.items) }
{
    owed.push(owing)?;
    Ok(())
}

/// Whether an answer is among those that are owed.
pub fn is_owed(owed: &[Owing], owing: &Owing) -> bool
    ensures { IsTrue result ↔ Contains owed.now owing.now }
{
    owed.contains(owing)
}

/// Sends an answer of a member. Where memory runs out, nothing changes.
pub fn send_answer(
    alloc: Global,
    number: u32,
    owing: &Owing,
    out: &mut Outbox,
) -> Result<(), OutOfMemory>
    ensures ok { OnOk result (out.new ≡ out.old ++ letter_with (Member number) owing.now.to (message_of owing.now.answer) ∷ []) }
    ensures err { OnErr result (out.new ≡ out.old) }
{
    let message = owing.answer.message();
    send(alloc, Actor::Member(number), owing.to, &message, out)
}

/// Sends all answers of a member that it owes, in their order.
pub fn send_all(
    alloc: Global,
    number: u32,
    owed: &[Owing],
    out: &mut Outbox,
) -> Result<(), OutOfMemory>
    ensures { OnOk result (out.new ≡ out.old ++ map (λ o. letter_with (Member number) o.to (message_of o.answer)) owed.now) }
{
    for owing in owed {
        send_answer(alloc, number, owing, out)?;
    }
    Ok(())
}
