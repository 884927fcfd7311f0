//! The lines of a generated schedule, put behind a text.

ghost use Rattle.std.specs.Prelude.{◌≡◌, ◌<◌, ◌≤◌, ◌++◌, [], ◌∷◌, OnOk, codes, decimal};
ghost use Rattle.bx_base.specs.Text.{ended, spaced};
ghost use Rattle.bx_base.specs.declared.names.Actor.TheVariants.{Node, Server};
ghost use Rattle.bx_disk.specs.declared.noise.Noise.TheVariants.{Keep};
ghost use Rattle.bx_script.specs.ScheduleLine.{machine_text, spelling};
ghost use Rattle.bx_script.specs.declared.line.Line.TheVariants.{Call, Crash, Heading, Restart, Run, Tick};

use bx_base::{Actor, OutOfMemory, push};
use itoa::Buffer;
use std::alloc::Global;

/// The most events of each run.
const RUN_LIMIT: u64 = 20000;

/// Puts the heading of a volume of one device and two areas.
pub(crate) fn put_heading(text: &mut Vec<u8>, volume: u64, nodes: u32) -> Result<(), OutOfMemory>
    ensures { OnOk result (text.new.items ≡ text.old.items ++ ended (spelling (Heading volume nodes 1 2))) }
{
    push(text, b"boxwood 1")?;
    put_number(text, volume)?;
    put_number(text, u64::from(nodes))?;
    put_number(text, 1)?;
    put_number(text, 2)?;
    push(text, b"\n")
}

/// Puts a datagram's line: it arrives at a node, from the client with the node's number.
pub(crate) fn put_call(
    alloc: Global,
    text: &mut Vec<u8>,
    reading: u64,
    node: u32,
    datagram: &[u8],
) -> Result<(), OutOfMemory>
    ensures { OnOk result (text.new.items ≡ text.old.items ++ ended (spelling (Call reading node node datagram.now))) }
{
    push(text, b"call")?;
    put_number(text, reading)?;
    put_number(text, u64::from(node))?;
    put_number(text, u64::from(node))?;
    let digits = hex::encode(alloc, datagram)?;
    push(text, b" ")?;
    push(text, digits.as_bytes())?;
    push(text, b"\n")
}

/// Puts a run's line.
pub(crate) fn put_run(text: &mut Vec<u8>, reading: u64) -> Result<(), OutOfMemory>
    ensures { OnOk result (text.new.items ≡ text.old.items ++ ended (spelling (Run reading 20000))) }
{
    push(text, b"run")?;
    put_number(text, reading)?;
    put_number(text, RUN_LIMIT)?;
    push(text, b"\n")
}

/// Puts a tick's line.
pub(crate) fn put_tick(text: &mut Vec<u8>, reading: u64, machine: Actor) -> Result<(), OutOfMemory>
    ensures { OnOk result (text.new.items ≡ text.old.items ++ ended (spelling (Tick reading machine))) }
{
    push(text, b"tick")?;
    put_number(text, reading)?;
    put_machine(text, machine)?;
    push(text, b"\n")
}

/// Puts a line of a word for the wants of a node, to the first lock server.
pub(crate) fn put_wants(text: &mut Vec<u8>, word: &[u8], node: u32) -> Result<(), OutOfMemory>
    ensures { OnOk result (text.new.items ≡ text.old.items ++ ended (spaced (word.now ∷ machine_text (Node node) ∷ machine_text (Server 0) ∷ codes "want" ∷ []))) }
{
    push(text, word)?;
    put_machine(text, Actor::Node(node))?;
    put_machine(text, Actor::Server(0))?;
    push(text, b" want\n")
}

/// Puts a crash's line: what is unsure stays as it reads.
pub(crate) fn put_crash(text: &mut Vec<u8>, machine: Actor) -> Result<(), OutOfMemory>
    ensures { OnOk result (text.new.items ≡ text.old.items ++ ended (spelling (Crash machine Keep))) }
{
    push(text, b"crash")?;
    put_machine(text, machine)?;
    push(text, b" keep\n")
}

/// Puts a restart's line.
pub(crate) fn put_restart(
    text: &mut Vec<u8>,
    reading: u64,
    machine: Actor,
) -> Result<(), OutOfMemory>
    ensures { OnOk result (text.new.items ≡ text.old.items ++ ended (spelling (Restart reading machine))) }
{
    push(text, b"restart")?;
    put_number(text, reading)?;
    put_machine(text, machine)?;
    push(text, b"\n")
}

// Puts a space and a number.
fn put_number(text: &mut Vec<u8>, number: u64) -> Result<(), OutOfMemory>
    ensures { OnOk result (text.new.items ≡ text.old.items ++ 32 ∷ decimal number) }
{
    let mut digits = Buffer::new();
    push(text, b" ")?;
    push(text, digits.format(number).as_bytes())
}

// Puts a space and the name of a machine.
fn put_machine(text: &mut Vec<u8>, machine: Actor) -> Result<(), OutOfMemory>
    ensures { OnOk result (text.new.items ≡ text.old.items ++ 32 ∷ machine_text machine) }
{
    match machine {
        Actor::Node(number) => put_named(text, b" n", number),
        Actor::Replica(number) => put_named(text, b" p", number),
        Actor::Server(number) => put_named(text, b" l", number),
        Actor::Member(number) if number % 2 == 0 => put_named(text, b" a", number / 2),
        Actor::Member(number) => put_named(text, b" b", number / 2),
    }
}

// Puts a word and a number right behind it.
fn put_named(text: &mut Vec<u8>, word: &[u8], number: u32) -> Result<(), OutOfMemory>
    ensures { OnOk result (text.new.items ≡ text.old.items ++ (word.now ++ decimal number)) }
{
    let mut digits = Buffer::new();
    push(text, word)?;
    push(text, digits.format(number).as_bytes())
}
