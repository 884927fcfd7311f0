//! Taking what a packet says.

ghost use Rattle.std.specs.Prelude.{◌≡◌, IfOk, OnErr};
ghost use Rattle.bx_rounds.specs.Courses.{GivesUp, PacketStep, Steps};
ghost use Rattle.bx_rounds.specs.Steps.{Hears, Learns};
ghost use Rattle.bx_rounds.specs.declared.course.Move.TheVariants.{Nothing};

use crate::course::{Course, Move};
use crate::rounds::{hear_refusal, tick};
use crate::votes::{hear_promise, hear_vote};
use bx_base::{Actor, OutOfMemory};
use bx_facts::Input;
use bx_global::GlobalState;
use bx_packets::Message;
use bx_post::Packet;
use std::alloc::Global;

/// Takes what comes.
pub fn step(
    alloc: Global,
    me: u32,
    devices: u32,
    course: &mut Course,
    input: &Input,
) -> Result<Move, OutOfMemory>
    ensures steps { IfOk result (λ move. Steps me devices course.old input.now course.new move) }
    ensures err { OnErr result (GivesUp course.old course.new) }
{
    match input {
        Input::Packet(packet, reading) => {
            course.reading = *reading;
            hear_packet(alloc, me, devices, course, packet)
        }
        Input::Tick(reading) => {
            course.reading = *reading;
            Ok(tick(me, course))
        }
        Input::Synced => Ok(Move::Nothing),
    }
}

/// Takes a packet. One that says nothing is passed over.
fn hear_packet(
    alloc: Global,
    me: u32,
    devices: u32,
    course: &mut Course,
    packet: &Packet,
) -> Result<Move, OutOfMemory>
    ensures steps { IfOk result (λ move. PacketStep me devices course.old packet.now.from packet.now.kind packet.now.body course.new move) }
    ensures err { OnErr result (GivesUp course.old course.new) }
{
    let Some(message) = Message::read(alloc, packet.kind, packet.body.bytes(), devices)? else {
        return Ok(Move::Nothing);
    };
    hear(alloc, me, course, packet.from, message)
}

/// Takes a message.
fn hear(
    alloc: Global,
    me: u32,
    course: &mut Course,
    from: Actor,
    message: Message,
) -> Result<Move, OutOfMemory>
    ensures hears { IfOk result (λ move. Hears me course.old from message course.new move) }
    ensures err { OnErr result (GivesUp course.old course.new) }
{
    match message {
        Message::Ask | Message::Prepare(_, _) | Message::Accept(_, _) => Ok(Move::Nothing),
        Message::Decided(state) => Ok(learn(course, state)),
        Message::Promise(promise) => match from {
            Actor::Replica(n) if n < 3 => hear_promise(alloc, course, n, promise),
            _ => Ok(Move::Nothing),
        },
        Message::Accepted(ballot, index) => match from {
            Actor::Replica(n) if n < 3 => Ok(hear_vote(course, n, &ballot, index)),
            _ => Ok(Move::Nothing),
        },
        Message::Refused(index, ballot) => match from {
            Actor::Replica(n) if n < 3 => Ok(hear_refusal(me, course, index, &ballot)),
            _ => Ok(Move::Nothing),
        },
    }
}

/// Takes a decided state, where it is newer than the last one.
pub fn learn(course: &mut Course, state: GlobalState) -> Move
    ensures learns { Learns course.old state course.new }
    ensures silent { result ≡ Nothing }
{
    if course.known.index < state.index {
        course.known = state;
        course.out = None;
    }
    Move::Nothing
}
