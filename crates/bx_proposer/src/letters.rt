//! Letters to other machines.

ghost use Rattle.std.specs.Prelude.{◌≡◌, ◌++◌, IfSome, OnOk};
ghost use Rattle.bx_global.specs.Bytes.{HasCounts};
ghost use Rattle.bx_packets.specs.Messages.{HasCountsIn};
ghost use Rattle.bx_proposer.specs.Letters.{accept_letters, asks_at, asks_of, letters_of, letters_to, prepare_letters};

use crate::names::REPLICAS;
use bx_base::{Actor, OutOfMemory};
use bx_facts::Input;
use bx_packets::{Message, send};
use bx_post::Outbox;
use bx_rounds::{Course, Move};
use std::alloc::Global;

/// Puts the same letter for each of these machines into the box.
fn send_each(
    alloc: Global,
    from: Actor,
    to: &[Actor],
    message: &Message,
    out: &mut Outbox,
) -> Result<(), OutOfMemory>
    requires { HasCountsIn message.now }
    ensures { OnOk result (out.new ≡ out.old ++ letters_to from message.now to.now) }
{
    for who in to {
        send(alloc, from, *who, message, out)?;
    }
    Ok(())
}

/// Puts what is sent after a step into the box.
pub(crate) fn tell(
    alloc: Global,
    at: Actor,
    others: &[Actor],
    course: &Course,
    step: Move,
    out: &mut Outbox,
) -> Result<(), OutOfMemory>
    requires known { HasCounts course.now.known }
    requires sent { IfSome course.now.out (λ p. IfSome p.sent HasCounts) }
    ensures { OnOk result (out.new ≡ out.old ++ letters_of at others.now course.now step) }
{
    match step {
        Move::Nothing => Ok(()),
        Move::Prepare => tell_ballot(alloc, at, course, out),
        Move::Accept => tell_state(alloc, at, course, out),
        Move::Decided => {
            let message = Message::Decided(course.known.copy(alloc)?);
            send_each(alloc, at, others, &message, out)
        }
    }
}

/// Sends the ballot that was drawn, and what is known, to the replicas.
fn tell_ballot(
    alloc: Global,
    at: Actor,
    course: &Course,
    out: &mut Outbox,
) -> Result<(), OutOfMemory>
    requires { HasCounts course.now.known }
    ensures { OnOk result (out.new ≡ out.old ++ prepare_letters at course.now.known course.now.out) }
{
    let Some(proposal) = &course.out else {
        return Ok(());
    };
    let Some(ballot) = proposal.ballot else {
        return Ok(());
    };
    let message = Message::Prepare(ballot, course.known.copy(alloc)?);
    send_each(alloc, at, &REPLICAS, &message, out)
}

/// Sends the state that the replicas are to accept.
fn tell_state(
    alloc: Global,
    at: Actor,
    course: &Course,
    out: &mut Outbox,
) -> Result<(), OutOfMemory>
    requires { IfSome course.now.out (λ p. IfSome p.sent HasCounts) }
    ensures { OnOk result (out.new ≡ out.old ++ accept_letters at course.now.out) }
{
    let Some(proposal) = &course.out else {
        return Ok(());
    };
    let Some(ballot) = proposal.ballot else {
        return Ok(());
    };
    let Some(state) = &proposal.sent else {
        return Ok(());
    };
    let message = Message::Accept(ballot, state.copy(alloc)?);
    send_each(alloc, at, &REPLICAS, &message, out)
}

/// Asks the replicas for what was decided. A replica asks nobody.
pub(crate) fn ask(alloc: Global, at: Actor, out: &mut Outbox) -> Result<(), OutOfMemory>
    ensures { OnOk result (out.new ≡ out.old ++ asks_of at) }
{
    match at {
        Actor::Replica(_) => Ok(()),
        Actor::Node(_) | Actor::Server(_) | Actor::Member(_) => {
            send_each(alloc, at, &REPLICAS, &Message::Ask, out)
        }
    }
}

/// Asks at a tick.
pub(crate) fn ask_at(
    alloc: Global,
    at: Actor,
    input: &Input,
    out: &mut Outbox,
) -> Result<(), OutOfMemory>
    ensures { OnOk result (out.new ≡ out.old ++ asks_at at input.now) }
{
    match input {
        Input::Tick(_) => ask(alloc, at, out),
        Input::Packet(_, _) | Input::Synced => Ok(()),
    }
}
