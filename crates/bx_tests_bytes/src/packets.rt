//! Packets of the register.

use crate::states::{tell_ballot, tell_state};
use bx_base::{OutOfMemory, u32_at};
use bx_packets::{Message, Promise};
use bx_tests_lines::Line;
use std::alloc::Global;

/// Tells a packet: a byte of its kind, four of how many devices there are, and the body.
pub(crate) fn packet(alloc: Global, line: &mut Line, bytes: &[u8]) -> Result<(), OutOfMemory> {
    let Some((kind, rest)) = bytes.split_first() else {
        line.text("no kind");
        return Ok(());
    };
    let Ok((devices, body)) = u32_at(rest) else {
        line.text("no devices");
        return Ok(());
    };
    let Some(message) = Message::read(alloc, *kind, body, devices)? else {
        line.text("none");
        return Ok(());
    };
    tell_message(line, &message);
    let written = message.write(alloc)?;
    line.written(written.bytes(), body);
    Ok(())
}

/// Tells a message: its kind, and its fields in their order.
fn tell_message(line: &mut Line, message: &Message) {
    line.number(u64::from(message.kind()));
    match message {
        Message::Ask => {}
        Message::Decided(state) => tell_state(line, state),
        Message::Prepare(ballot, state) | Message::Accept(ballot, state) => {
            tell_ballot(line, ballot);
            tell_state(line, state);
        }
        Message::Promise(promise) => tell_promise(line, promise),
        Message::Accepted(ballot, index) => {
            tell_ballot(line, ballot);
            line.number(*index);
        }
        Message::Refused(index, ballot) => {
            line.number(*index);
            tell_ballot(line, ballot);
        }
    }
}

fn tell_promise(line: &mut Line, promise: &Promise) {
    tell_ballot(line, &promise.ballot);
    line.numbers(&[promise.index, u64::from(promise.flag)]);
    tell_ballot(line, &promise.accepted);
    tell_state(line, &promise.state);
}
