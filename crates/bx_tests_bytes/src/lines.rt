//! Lines of schedules and of traces.

use bx_base::{Actor, OutOfMemory, Point, Raw, ReadError, u32_at, u64_at};
use bx_disk::Noise;
use bx_script::{Line, TraceLine};
use bx_tests_lines::Line as Answer;
use std::alloc::Global;

/// Tells a line of a schedule.
pub(crate) fn schedule(
    alloc: Global,
    answer: &mut Answer,
    bytes: &[u8],
) -> Result<(), OutOfMemory> {
    match Line::read(alloc, bytes)? {
        Some(line) => tell_line(answer, &line),
        None => answer.text("none"),
    }
    Ok(())
}

/// Tells the fields of a line.
fn tell_line(answer: &mut Answer, line: &Line) {
    match line {
        Line::Heading {
            volume,
            nodes,
            devices,
            areas,
        } => {
            answer.text("heading");
            answer.number(*volume);
            answer.numbers(&[u64::from(*nodes), u64::from(*devices), u64::from(*areas)]);
        }
        Line::Call {
            reading,
            node,
            client,
            datagram,
        } => {
            answer.text("call");
            answer.numbers(&[*reading, u64::from(*node), u64::from(*client)]);
            answer.bytes(datagram.bytes());
        }
        Line::Run { reading, limit } => {
            answer.text("run");
            answer.numbers(&[*reading, u64::from(*limit)]);
        }
        Line::CrashAll { noise } => tell_noise(answer, *noise),
        Line::RestartAll { reading } => {
            answer.text("restart");
            answer.number(*reading);
        }
        _ => tell_event(answer, line),
    }
}

/// Tells what happens to one machine, or to packets.
fn tell_event(answer: &mut Answer, line: &Line) {
    match line {
        Line::Tick { reading, machine } => {
            answer.text("tick");
            answer.number(*reading);
            tell_machine(answer, *machine);
        }
        Line::Deliver { reading, number } => {
            answer.text("deliver");
            answer.numbers(&[*reading, *number]);
        }
        Line::Next { reading, from, to } => {
            answer.text("next");
            answer.number(*reading);
            tell_machine(answer, *from);
            tell_machine(answer, *to);
        }
        Line::Hold { from, to, kind } => tell_lane(answer, "hold", *from, *to, *kind),
        Line::Free { from, to, kind } => tell_lane(answer, "free", *from, *to, *kind),
        Line::Drop { from, to, kind } => tell_lane(answer, "drop", *from, *to, *kind),
        _ => tell_stop(answer, line),
    }
}

/// Tells what happens to a machine that stops, starts, or whose disk finishes a sync or is replaced.
fn tell_stop(answer: &mut Answer, line: &Line) {
    match line {
        Line::Sync { machine } => {
            answer.text("sync");
            tell_machine(answer, *machine);
        }
        Line::Crash { machine, noise } => {
            tell_noise(answer, *noise);
            tell_machine(answer, *machine);
        }
        Line::Restart { reading, machine } => {
            answer.text("restart");
            answer.number(*reading);
            tell_machine(answer, *machine);
        }
        Line::Blank { machine } => {
            answer.text("blank");
            tell_machine(answer, *machine);
        }
        _ => answer.text("another"),
    }
}

/// Tells the packets of one kind from a machine to another.
fn tell_lane(answer: &mut Answer, word: &str, from: Actor, to: Actor, kind: u8) {
    answer.text(word);
    tell_machine(answer, from);
    tell_machine(answer, to);
    answer.number(u64::from(kind));
}

/// Tells a machine.
fn tell_machine(answer: &mut Answer, machine: Actor) {
    match machine {
        Actor::Node(number) => tell_named(answer, "node", number),
        Actor::Replica(number) => tell_named(answer, "replica", number),
        Actor::Server(number) => tell_named(answer, "server", number),
        Actor::Member(number) => tell_named(answer, "member", number),
    }
}

/// Tells a space, a word and a number.
fn tell_named(answer: &mut Answer, word: &str, number: u32) {
    answer.text(" ");
    answer.text(word);
    answer.number(u64::from(number));
}

/// Tells a crash.
fn tell_noise(answer: &mut Answer, noise: Noise) {
    match noise {
        Noise::Keep => answer.text("crash keep"),
        Noise::Drop => answer.text("crash drop"),
        Noise::Seed(number) => {
            answer.text("crash seed");
            answer.number(number);
        }
    }
}

/// Tells how the line of a trace is written that has these fields: a byte of its kind, and the fields in their order.
pub(crate) fn trace(alloc: Global, answer: &mut Answer, bytes: &[u8]) -> Result<(), OutOfMemory> {
    let Ok(line) = trace_line(alloc, bytes) else {
        answer.text("no line");
        return Ok(());
    };
    let mut text = Vec::new(alloc);
    line.append(&mut text)?;
    match str::from_utf8(text.as_slice()) {
        Ok(text) => answer.text(text),
        Err(_) => answer.text("no text"),
    }
    Ok(())
}

/// The line of a trace with these fields.
fn trace_line(alloc: Global, bytes: &[u8]) -> Result<TraceLine, ReadError> {
    match bytes.split_first() {
        Some((0, rest)) => took(alloc, rest),
        Some((1, rest)) => acted(rest),
        Some((2, rest)) => replied(alloc, rest),
        Some((_, rest)) => again(alloc, rest),
        None => Err(ReadError::Malformed),
    }
}

fn took(alloc: Global, bytes: &[u8]) -> Result<TraceLine, ReadError> {
    let (call, rest) = u64_at(bytes)?;
    let (node, rest) = u32_at(rest)?;
    let (client, rest) = u32_at(rest)?;
    let datagram = Raw::of(alloc, rest)?;
    Ok(TraceLine::Took {
        call,
        node,
        client,
        datagram,
    })
}

fn acted(bytes: &[u8]) -> Result<TraceLine, ReadError> {
    let (call, rest) = u64_at(bytes)?;
    let (moment, rest) = u64_at(rest)?;
    let (spare, rest) = u64_at(rest)?;
    let (made, _rest) = u64_at(rest)?;
    Ok(TraceLine::Acted(Point {
        call,
        moment,
        spare,
        made,
    }))
}

fn replied(alloc: Global, bytes: &[u8]) -> Result<TraceLine, ReadError> {
    let (call, rest) = u64_at(bytes)?;
    let reply = Raw::of(alloc, rest)?;
    Ok(TraceLine::Reply { call, reply })
}

fn again(alloc: Global, bytes: &[u8]) -> Result<TraceLine, ReadError> {
    let (node, rest) = u32_at(bytes)?;
    let (client, rest) = u32_at(rest)?;
    let reply = Raw::of(alloc, rest)?;
    Ok(TraceLine::Again {
        node,
        client,
        reply,
    })
}
