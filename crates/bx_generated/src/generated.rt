//! A generated schedule, call by call.

ghost use Rattle.std.specs.Prelude.{◌≡◌, ◌<◌, ◌≤◌, ◌+◌, ◌++◌, OnErr, OnOk, nat_le, ℕ};
ghost use Rattle.bx_base.specs.Text.{ended};
ghost use Rattle.bx_script.specs.ScheduleLine.{spelling};
ghost use Rattle.bx_script.specs.declared.line.Line.TheVariants.{Heading};
ghost use Rattle.bx_generated.specs.Datagrams.{datagram};
ghost use Rattle.bx_generated.specs.Schedules.{again_lines, call_lines, crash_lines, freed_lines, held_lines, lines_behind, node_ticks, reading_at, text_of_lines, tick_lines, ticks};

use crate::datagrams::datagram;
use crate::draws::{Draw, next_draw, seeded};
use crate::lines::{put_call, put_crash, put_heading, put_restart, put_run, put_tick, put_wants};
use bx_base::{Actor, OutOfMemory};
use rand_pcg::Pcg32;
use std::alloc::Global;
use std::marker::Model;

/// The milliseconds from call to call.
const STEP: u64 = 50;

/// The clocks tick behind each call whose number this divides.
const TICKS: u32 = 20;

/// What makes the lines of a schedule of a seed, call by call. Contracts see it as its numbers, and how many calls it has made.
#[derive(Drop)]
pub struct Generated {
    generator: Pcg32,
    seed: u64,
    nodes: u32,
    calls: u32,
    made: u32,
    next: Draw,
}

impl Model for Generated {
    ghost use Rattle.std.specs.Prelude.{◌≡◌, ◌≤◌, ◌<◌, ◌+◌};
    ghost use Rattle.bx_generated.specs.Draws.{draw_behind, generator_behind};
    ghost use Rattle.bx_generated.specs.Progress.{Progress};

    ghost Value = { Progress };

    ghost view = { λ g. record { seed = g.seed; nodes = g.nodes; calls = g.calls; made = g.made } };

    ghost invariant = { λ g. (g.generator ≡ generator_behind g.seed (g.made + 1)) × (g.next ≡ draw_behind g.seed g.nodes g.made) × (g.next.first < 100) × (g.next.second < 100) × (1 ≤ g.nodes) × (g.made ≤ g.calls) × (g.calls ≤ 20000) };
}

impl Generated {
    /// The schedule of a seed, with so many nodes, and calls, at most 20000. No call is made yet.
    pub fn new(seed: u64, nodes: u32, calls: u32) -> Generated
        requires some { 1 ≤ nodes }
        requires most { calls ≤ 20000 }
        ensures { result ≡ record { seed = seed; nodes = nodes; calls = calls; made = 0 } }
    {
        let mut generator = seeded(seed);
        let next = next_draw(&mut generator, nodes);
        Generated {
            generator,
            seed,
            nodes,
            calls,
            made: 0,
            next,
        }
    }

    /// Whether all calls are made.
    pub fn is_done(&self) -> bool
        ensures { result ≡ nat_le self.now.calls self.now.made }
    {
        self.calls <= self.made
    }

    /// Puts the heading behind a text. Without memory a part of it is put.
    pub fn put_heading(&self, text: &mut Vec<u8>) -> Result<(), OutOfMemory>
        ensures { OnOk result (text.new.items ≡ text.old.items ++ ended (spelling (Heading self.now.seed self.now.nodes 1 2))) }
    {
        put_heading(text, self.seed, self.nodes)
    }

    /// Makes the next call, and puts its lines behind a text, with those that come behind it. Without memory a part of them is put, and the
    /// call isn't made.
    pub fn put_next(&mut self, alloc: Global, text: &mut Vec<u8>) -> Result<(), OutOfMemory>
        requires { self.old.made < self.old.calls }
        ensures text { OnOk result (text.new.items ≡ text.old.items ++ text_of_lines (lines_behind self.old.seed self.old.nodes self.old.calls self.old.made)) }
        ensures made { OnOk result (self.new ≡ record self.old { made = self.old.made + 1 }) }
        ensures err { OnErr result (self.new ≡ self.old) }
    {
        self.put_lines(alloc, text)?;
        self.made += 1;
        self.next = next_draw(&mut self.generator, self.nodes);
        Ok(())
    }

    // Puts the lines of the next call behind a text, with those that come behind it.
    #[tactic(auto, unfolding(crate::specs::Schedules::lines_behind))]
    fn put_lines(&self, alloc: Global, text: &mut Vec<u8>) -> Result<(), OutOfMemory>
        requires { self.now.made < self.now.calls }
        ensures { OnOk result (text.new.items ≡ text.old.items ++ text_of_lines (lines_behind self.now.seed self.now.nodes self.now.calls self.now.made)) }
    {
        let number = self.made + 1;
        put_call_lines(alloc, text, self.seed, number, &self.next)?;
        put_ticks(text, self.nodes, number)?;
        put_crash_lines(text, self.nodes, self.calls, number)
    }
}

/// The reading at a call, in milliseconds.
fn reading(number: u32) -> u64
    ensures { result ≡ reading_at number }
{
    STEP * u64::from(number)
}

/// Puts the lines of a call.
#[tactic(auto, unfolding(crate::specs::Schedules::call_lines))]
fn put_call_lines(
    alloc: Global,
    text: &mut Vec<u8>,
    volume: u64,
    number: u32,
    draw: &Draw,
) -> Result<(), OutOfMemory>
    requires first { draw.now.first < 100 }
    requires second { draw.now.second < 100 }
    ensures { OnOk result (text.new.items ≡ text.old.items ++ text_of_lines (call_lines volume number draw.now)) }
{
    let bytes = datagram(alloc, volume, number, draw)?;
    put_held(text, draw)?;
    put_call(alloc, text, reading(number), draw.node, bytes.bytes())?;
    put_run(text, reading(number))?;
    put_again(alloc, text, number, draw, bytes.bytes())?;
    put_freed(text, draw)
}

/// Puts what holds the wants of a node back, at turn 1.
#[tactic(auto, unfolding(crate::specs::Schedules::held_lines))]
fn put_held(text: &mut Vec<u8>, draw: &Draw) -> Result<(), OutOfMemory>
    ensures { OnOk result (text.new.items ≡ text.old.items ++ text_of_lines (held_lines draw.now)) }
{
    if draw.turn != 1 {
        return Ok(());
    }
    put_wants(text, b"hold", draw.node)
}

/// Puts what drops and frees the wants of a node, at turn 1.
#[tactic(auto, unfolding(crate::specs::Schedules::freed_lines))]
fn put_freed(text: &mut Vec<u8>, draw: &Draw) -> Result<(), OutOfMemory>
    ensures { OnOk result (text.new.items ≡ text.old.items ++ text_of_lines (freed_lines draw.now)) }
{
    if draw.turn != 1 {
        return Ok(());
    }
    put_wants(text, b"drop", draw.node)?;
    put_wants(text, b"free", draw.node)
}

/// Puts the call again, at turn 0.
#[tactic(auto, unfolding(crate::specs::Schedules::again_lines))]
fn put_again(
    alloc: Global,
    text: &mut Vec<u8>,
    number: u32,
    draw: &Draw,
    bytes: &[u8],
) -> Result<(), OutOfMemory>
    ensures { (volume : ℕ) → bytes.now ≡ datagram volume number draw.now → OnOk result (text.new.items ≡ text.old.items ++ text_of_lines (again_lines volume number draw.now)) }
{
    if draw.turn != 0 {
        return Ok(());
    }
    put_call(alloc, text, reading(number), draw.node, bytes)
}

/// Puts the ticks behind the call with a number.
#[tactic(auto, unfolding(crate::specs::Schedules::ticks))]
fn put_ticks(text: &mut Vec<u8>, nodes: u32, number: u32) -> Result<(), OutOfMemory>
    ensures { OnOk result (text.new.items ≡ text.old.items ++ text_of_lines (ticks nodes number)) }
{
    if number % TICKS != 0 {
        return Ok(());
    }
    put_tick_lines(text, number, Actor::Server(0))?;
    put_tick_lines(text, number, Actor::Server(1))?;
    put_tick_lines(text, number, Actor::Member(0))?;
    put_tick_lines(text, number, Actor::Member(1))?;
    put_node_ticks(text, nodes, number)
}

/// Puts the ticks of the first so many nodes.
#[tactic(auto, using(crate::proofs::Texts::node_step), unfolding(crate::specs::Schedules::node_ticks))]
fn put_node_ticks(text: &mut Vec<u8>, nodes: u32, number: u32) -> Result<(), OutOfMemory>
    ensures { OnOk result (text.new.items ≡ text.old.items ++ text_of_lines (node_ticks number nodes)) }
{
    for node in 0..nodes {
        put_tick_lines(text, number, Actor::Node(node))?;
    }
    Ok(())
}

/// Puts the tick of a machine, and a run.
fn put_tick_lines(text: &mut Vec<u8>, number: u32, machine: Actor) -> Result<(), OutOfMemory>
    ensures { OnOk result (text.new.items ≡ text.old.items ++ text_of_lines (tick_lines number machine)) }
{
    put_tick(text, reading(number), machine)?;
    put_run(text, reading(number))
}

/// Puts the crash and the restart of a node behind a fifth of the calls.
#[tactic(auto, unfolding(crate::specs::Schedules::crash_lines))]
fn put_crash_lines(
    text: &mut Vec<u8>,
    nodes: u32,
    calls: u32,
    number: u32,
) -> Result<(), OutOfMemory>
    requires { 1 ≤ nodes }
    ensures { OnOk result (text.new.items ≡ text.old.items ++ text_of_lines (crash_lines nodes calls number)) }
{
    if calls < 5 || number % (calls / 5) != 0 || number / (calls / 5) > 4 {
        return Ok(());
    }
    let machine = Actor::Node(number / (calls / 5) % nodes);
    put_crash(text, machine)?;
    put_restart(text, reading(number), machine)?;
    put_run(text, reading(number))
}
