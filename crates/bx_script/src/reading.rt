//! Reading a line of a schedule from left to right.

ghost use Rattle.std.specs.Prelude.{◌≡◌, not, IfOk};
ghost use Rattle.std.specs.List.{list_all};
ghost use Rattle.std.specs.Char.{is_ascii_uppercase};
ghost use Rattle.bx_script.specs.Reading.{Gives, blank_of, call_fields_of, call_of, crash_of, datagram_of, deliver_of, drop_of, free_of, heading_of, hold_of, lane_of, line_of, machines_line_of, next_of, packets_line_of, restart_of, run_of, sync_of, tick_of};

use crate::field::{cut, number, number_at, word, word_at};
use crate::line::{Line, MAX_AREAS, MAX_DATAGRAM, MAX_DEVICES, MAX_NODES, MAX_READING, MAX_RUN};
use crate::names::{kind, machine, noise};
use bx_base::{Actor, OutOfMemory, Raw};
use hex::FromHexError;
use std::alloc::Global;

/// The line that a text spells.
#[tactic(auto, unfolding(crate::specs::Reading::line_of))]
pub fn read_line(alloc: Global, text: &[u8]) -> Result<Option<Line>, OutOfMemory>
    ensures { IfOk result (λ found. found ≡ line_of text.now) }
{
    let Some((word, rest)) = cut(text) else {
        return Ok(None);
    };
    match word {
        b"boxwood" => Ok(heading(rest)),
        b"call" => call(alloc, rest),
        b"run" => Ok(run(rest)),
        _ => Ok(machines_line(word, rest)),
    }
}

// `1 VOLUME NODES DEVICES AREAS`
#[tactic(auto, unfolding(crate::specs::Reading::heading_of))]
fn heading(text: &[u8]) -> Option<Line>
    ensures { result ≡ heading_of text.now }
{
    let (version, rest) = word_at(text, u32::MAX)?;
    let (volume, rest) = number_at(rest, u64::MAX)?;
    let (nodes, rest) = word_at(rest, MAX_NODES)?;
    let (devices, rest) = word_at(rest, MAX_DEVICES)?;
    let areas = word(rest, MAX_AREAS)?;
    if version == 1 && nodes >= 1 && devices >= 1 && areas >= 1 {
        Some(Line::Heading {
            volume,
            nodes,
            devices,
            areas,
        })
    } else {
        None
    }
}

// `READING NODE CLIENT HEX`
#[tactic(auto, unfolding(crate::specs::Reading::call_of))]
fn call(alloc: Global, text: &[u8]) -> Result<Option<Line>, OutOfMemory>
    ensures { IfOk result (λ found. found ≡ call_of text.now) }
{
    let Some((reading, node, client, hex)) = call_fields(text) else {
        return Ok(None);
    };
    let Some(datagram) = datagram(alloc, hex)? else {
        return Ok(None);
    };
    Ok(Some(Line::Call {
        reading,
        node,
        client,
        datagram,
    }))
}

// `READING NODE CLIENT HEX`, with the hex as it stands.
#[tactic(auto, unfolding(crate::specs::Reading::call_fields_of))]
fn call_fields(text: &[u8]) -> Option<(u64, u32, u32, &[u8])>
    ensures { Gives (λ x. (x.0, x.1, x.2, x.3.now)) result (call_fields_of text.now) }
{
    let (reading, rest) = number_at(text, MAX_READING)?;
    let (node, rest) = word_at(rest, u32::MAX)?;
    let (client, hex) = word_at(rest, u32::MAX)?;
    Some((reading, node, client, hex))
}

// `READING LIMIT`
#[tactic(auto, unfolding(crate::specs::Reading::run_of))]
fn run(text: &[u8]) -> Option<Line>
    ensures { result ≡ run_of text.now }
{
    let (reading, rest) = number_at(text, MAX_READING)?;
    let limit = number(rest, u64::from(MAX_RUN))?;
    if limit == 0 {
        return None;
    }
    Some(Line::Run {
        reading,
        limit: limit as u32,
    })
}

// The line of a word and a rest that says what happens to machines.
#[tactic(auto, unfolding(crate::specs::Reading::machines_line_of))]
fn machines_line(word: &[u8], rest: &[u8]) -> Option<Line>
    ensures { result ≡ machines_line_of word.now rest.now }
{
    if word == b"tick".as_slice() {
        tick(rest)
    } else if word == b"sync".as_slice() {
        sync(rest)
    } else if word == b"crash".as_slice() {
        crash(rest)
    } else if word == b"restart".as_slice() {
        restart(rest)
    } else if word == b"blank".as_slice() {
        blank(rest)
    } else {
        packets_line(word, rest)
    }
}

// The line of a word and a rest that says what happens to packets.
#[tactic(auto, unfolding(crate::specs::Reading::packets_line_of))]
fn packets_line(word: &[u8], rest: &[u8]) -> Option<Line>
    ensures { result ≡ packets_line_of word.now rest.now }
{
    if word == b"deliver".as_slice() {
        deliver(rest)
    } else if word == b"next".as_slice() {
        next(rest)
    } else if word == b"hold".as_slice() {
        hold(rest)
    } else if word == b"free".as_slice() {
        free(rest)
    } else if word == b"drop".as_slice() {
        drop_line(rest)
    } else {
        None
    }
}

// `READING MACHINE`
#[tactic(auto, unfolding(crate::specs::Reading::tick_of))]
fn tick(text: &[u8]) -> Option<Line>
    ensures { result ≡ tick_of text.now }
{
    let (reading, who) = number_at(text, MAX_READING)?;
    let machine = machine(who)?;
    Some(Line::Tick { reading, machine })
}

// `MACHINE`
#[tactic(auto, unfolding(crate::specs::Reading::sync_of))]
fn sync(text: &[u8]) -> Option<Line>
    ensures { result ≡ sync_of text.now }
{
    let machine = machine(text)?;
    Some(Line::Sync { machine })
}

// `MACHINE NOISE` or `all NOISE`
#[tactic(auto, unfolding(crate::specs::Reading::crash_of))]
fn crash(text: &[u8]) -> Option<Line>
    ensures { result ≡ crash_of text.now }
{
    let (who, field) = cut(text)?;
    let noise = noise(field)?;
    if who == b"all".as_slice() {
        return Some(Line::CrashAll { noise });
    }
    let machine = machine(who)?;
    Some(Line::Crash { machine, noise })
}

// `READING MACHINE` or `READING all`
#[tactic(auto, unfolding(crate::specs::Reading::restart_of))]
fn restart(text: &[u8]) -> Option<Line>
    ensures { result ≡ restart_of text.now }
{
    let (reading, who) = number_at(text, MAX_READING)?;
    if who == b"all".as_slice() {
        return Some(Line::RestartAll { reading });
    }
    let machine = machine(who)?;
    Some(Line::Restart { reading, machine })
}

// `MACHINE`
#[tactic(auto, unfolding(crate::specs::Reading::blank_of))]
fn blank(text: &[u8]) -> Option<Line>
    ensures { result ≡ blank_of text.now }
{
    let machine = machine(text)?;
    Some(Line::Blank { machine })
}

// `READING NUMBER`
#[tactic(auto, unfolding(crate::specs::Reading::deliver_of))]
fn deliver(text: &[u8]) -> Option<Line>
    ensures { result ≡ deliver_of text.now }
{
    let (reading, digits) = number_at(text, MAX_READING)?;
    let number = number(digits, u64::MAX)?;
    Some(Line::Deliver { reading, number })
}

// `READING FROM TO`
#[tactic(auto, unfolding(crate::specs::Reading::next_of))]
fn next(text: &[u8]) -> Option<Line>
    ensures { result ≡ next_of text.now }
{
    let (reading, rest) = number_at(text, MAX_READING)?;
    let (from, to) = cut(rest)?;
    let from = machine(from)?;
    let to = machine(to)?;
    Some(Line::Next { reading, from, to })
}

// `FROM TO KIND`
#[tactic(auto, unfolding(crate::specs::Reading::lane_of))]
fn lane(text: &[u8]) -> Option<(Actor, Actor, u8)>
    ensures { result ≡ lane_of text.now }
{
    let (from, rest) = cut(text)?;
    let (to, word) = cut(rest)?;
    let from = machine(from)?;
    let to = machine(to)?;
    let kind = kind(word)?;
    Some((from, to, kind))
}

#[tactic(auto, unfolding(crate::specs::Reading::hold_of))]
fn hold(text: &[u8]) -> Option<Line>
    ensures { result ≡ hold_of text.now }
{
    let (from, to, kind) = lane(text)?;
    Some(Line::Hold { from, to, kind })
}

#[tactic(auto, unfolding(crate::specs::Reading::free_of))]
fn free(text: &[u8]) -> Option<Line>
    ensures { result ≡ free_of text.now }
{
    let (from, to, kind) = lane(text)?;
    Some(Line::Free { from, to, kind })
}

#[tactic(auto, unfolding(crate::specs::Reading::drop_of))]
fn drop_line(text: &[u8]) -> Option<Line>
    ensures { result ≡ drop_of text.now }
{
    let (from, to, kind) = lane(text)?;
    Some(Line::Drop { from, to, kind })
}

// The bytes that hex digits in lower case spell, at most `MAX_DATAGRAM`.
#[tactic(auto, unfolding(crate::specs::Reading::datagram_of))]
fn datagram(alloc: Global, hex: &[u8]) -> Result<Option<Raw>, OutOfMemory>
    ensures { IfOk result (λ found. found ≡ datagram_of hex.now) }
{
    if hex.len() > 2 * MAX_DATAGRAM || !lacks_upper_case(hex) {
        return Ok(None);
    }
    match hex::decode(alloc, hex) {
        Ok(bytes) => Ok(Some(Raw::from(bytes))),
        Err(FromHexError::OutOfMemory) => Err(OutOfMemory),
        Err(_) => Ok(None),
    }
}

// Whether no byte is a letter in upper case.
fn lacks_upper_case(text: &[u8]) -> bool
    ensures { result ≡ list_all (λ c. not (is_ascii_uppercase c)) text.now }
{
    text.iter().all(|c| !c.is_ascii_uppercase())
}
