//! Taking what a packet says.

ghost use Rattle.std.specs.Prelude.{◌≡◌, ℕ, ◌+◌, ◌^◌, ◌<◌, ◌≤◌, ◌⊎◌, true, length, slice_index, OnErr, OnOk, IsErrOf};
ghost use Rattle.bx_base.specs.declared.names.Actor.{Actor};
ghost use Rattle.bx_disk.specs.Counts.{NoneRose};
ghost use Rattle.bx_disk.specs.Kept.{CountedOn};
ghost use Rattle.bx_calls.specs.Calls.{LeavesOnly};
ghost use Rattle.bx_cell.specs.Images.{EachSure};
ghost use Rattle.bx_cell.specs.Cells.{HasEither, Holds, next, with_value};
ghost use Rattle.bx_facts.specs.declared.input.FactError.TheVariants.{Disk as DiskFails, OutOfMemory as MemoryFails};
ghost use Rattle.bx_global.specs.Bytes.{IsHeld, held_text};
ghost use Rattle.bx_packets.specs.Messages.{IsMessage};
ghost use Rattle.bx_acceptor.specs.Disks.{Writes};
ghost use Rattle.bx_answers.specs.Handling.{Changes, MayBecome};
ghost use Rattle.bx_acceptor.specs.Standing.{Answers, IsTaken};

use crate::saving::save;
use bx_answers::{handle, tell};
use bx_base::Actor;
use bx_cell::Cell;
use bx_disk::Rack;
use bx_facts::FactError;
use bx_global::Held;
use bx_packets::Message;
use bx_post::Outbox;
use std::alloc::Global;

/// Takes a message: what is held then is in the cell before the answer is in the box.
pub(crate) fn serve<R: Rack>(
    alloc: Global,
    rack: &mut R,
    replica: u32,
    cell: &mut Cell,
    held: &mut Held,
    message: Message,
    from: Actor,
    out: &mut Outbox,
) -> Result<(), FactError>
    requires held { (devices : ℕ) × IsHeld devices held.old × IsMessage devices message }
    requires cell { (cell.old.disk ≡ replica) × (cell.old.base ≡ 1) × (cell.old.ready ≡ true) }
    requires taken { IsTaken cell.old.found.number message }
    requires range { 21 ≤ slice_index (R.state rack.old).sizes replica }
    ensures answers { OnOk result (Answers replica held.old message from held.new out.old out.new) }
    ensures unsent { OnErr result (out.new ≡ out.old) }
    ensures becomes { MayBecome held.old message held.new }
    ensures held { (devices : ℕ) → IsHeld devices held.old → IsMessage devices message → IsHeld devices held.new }
    ensures stored { OnOk result ((cell.new ≡ with_value cell.old (held_text held.new)) ⊎ ((cell.new ≡ cell.old) × (held.new ≡ held.old) × (rack.new ≡ rack.old))) }
    ensures spare { (Changes held.old message → ⊥) → rack.new ≡ rack.old }
    ensures holds { R.tells rack.old → EachSure (R.state rack.old) (Holds cell.old) → OnOk result (EachSure (R.state rack.new) (Holds cell.new)) }
    ensures any_moment { R.tells rack.old → EachSure (R.state rack.old) (Holds cell.old)
        → LeavesOnly (R.moment rack.old) (R.moment rack.new) (R.left_since rack.old) (R.left_since rack.new) (HasEither (R.state rack.old) replica 1 cell.old.found (next cell.old.found (held_text held.new))) }
    ensures either { R.tells rack.old → EachSure (R.state rack.old) (Holds cell.old)
        → EachSure (R.state rack.new) (HasEither (R.state rack.old) replica 1 cell.old.found (next cell.old.found (held_text held.new))) }
    ensures disks { R.tells rack.old → Writes (R.state rack.old) (R.state rack.new) (R.moment rack.old) (R.moment rack.new) (R.left_since rack.old) (R.left_since rack.new) replica }
    ensures memory { IsErrOf result MemoryFails → NoneRose (R.faults rack.old) (R.faults rack.new) (R.faults_of rack.old) (R.faults_of rack.new) }
    ensures rack { CountedOn R.Rack rack.old rack.new replica result DiskFails }
{
    let step = handle(alloc, held, message)?;
    save(alloc, rack, cell, held, step.changed)?;
    tell(alloc, replica, from, held, step.reply, out)?;
    Ok(())
}
