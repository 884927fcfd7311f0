//! Which packets an acceptor takes.

ghost use Rattle.std.specs.Prelude.{◌≡◌, ◌↔◌, IfNone, IfOk, IfSome, IsTrue};
ghost use Rattle.bx_base.specs.declared.names.Actor.{Actor};
ghost use Rattle.bx_packets.specs.Messages.{Spells};
ghost use Rattle.bx_packets.specs.declared.message.Message.{Message};
ghost use Rattle.bx_acceptor.specs.Standing.{Brings, IsTaken, IsTakenBy};

use bx_base::{Actor, OutOfMemory};
use bx_cell::Cell;
use bx_facts::Input;
use bx_packets::Message;
use bx_post::Packet;
use std::alloc::Global;

/// What comes that an acceptor with this cell takes, and from where; `None` exactly where it takes nothing of it.
pub(crate) fn heard(
    alloc: Global,
    cell: &Option<Cell>,
    input: &Input,
    devices: u32,
) -> Result<Option<(Actor, Message)>, OutOfMemory>
    ensures some { IfOk result (λ found. IfSome found (λ x. Brings devices input.now x.1 x.0 × IsTakenBy cell.now x.1)) }
    ensures none { IfOk result (λ found. IfNone found ((message : Message) (from : Actor) → Brings devices input.now message from → IsTakenBy cell.now message → ⊥)) }
{
    let packet = match input {
        Input::Packet(packet, _) => packet,
        Input::Tick(_) => return Ok(None),
        Input::Synced => return Ok(None),
    };
    let Some(cell) = cell else {
        return Ok(None);
    };
    let Some(message) = said(alloc, cell.number(), packet, devices)? else {
        return Ok(None);
    };
    Ok(Some((packet.from, message)))
}

/// What a packet says that an acceptor takes whose cell has this number; `None` exactly where it takes nothing of it.
fn said(
    alloc: Global,
    number: u64,
    packet: &Packet,
    devices: u32,
) -> Result<Option<Message>, OutOfMemory>
    ensures some { IfOk result (λ found. IfSome found (λ message. Spells devices message packet.now.kind packet.now.body × IsTaken number message)) }
    ensures none { IfOk result (λ found. IfNone found ((message : Message) → Spells devices message packet.now.kind packet.now.body → IsTaken number message → ⊥)) }
{
    let Some(message) = Message::read(alloc, packet.kind, packet.body.bytes(), devices)? else {
        return Ok(None);
    };
    if !is_taken(number, &message) {
        return Ok(None);
    }
    Ok(Some(message))
}

/// Whether an acceptor whose cell has this number takes a message.
fn is_taken(number: u64, message: &Message) -> bool
    ensures { IsTrue result ↔ IsTaken number message.now }
{
    match message {
        Message::Ask => true,
        Message::Decided(state) | Message::Prepare(_, state) => {
            number < u64::MAX && state.index < u64::MAX
        }
        Message::Accept(_, _) => number < u64::MAX,
        Message::Promise(_) | Message::Accepted(_, _) | Message::Refused(_, _) => false,
    }
}
