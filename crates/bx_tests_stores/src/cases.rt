//! What a store does alone, and two nodes that share a block.

use crate::bench::Step::{
    Brings, GivesUp, Has, Holds, IsAsked, IsDone, Reads, Starts, Stops, Syncs, Ticks, Waits, Wants,
    Writes,
};
use crate::bench::{Step, runs};
use bx_base::Actor::{Member, Node};

/// What is tried, the calls of the rack that fail, and steps: those at first, and then others.
#[derive(Clone, Copy)]
struct Case(&'static str, &'static [u64], [&'static [Step]; 2]);

const CASES: [Case; 8] = [
    Case("put at one sync, done at another", &[], [&PUT, &[]]),
    Case("read by another node", &[], [&READ, &[]]),
    Case("a member is down", &[], [&MEMBER_DOWN, &[]]),
    Case("a node crashes", &[], [&NODE_CRASHES, &[]]),
    Case("faults", &[2, 9], [&FAULTS, &[]]),
    Case("stopped early", &[], [&HANDED_ON, &STOPPED_EARLY]),
    Case("stopped late", &[], [&HANDED_ON, &STOPPED_LATE]),
    Case("done", &[], [&HANDED_ON, &DONE]),
];

/// A write is put at the first sync, and done at the second.
const PUT: [Step; 12] = [
    Ticks(0),
    Waits(0, false),
    Writes(0, 5, 170),
    Waits(0, true),
    Waits(1, false),
    Syncs(0, true),
    Has(3, 5, 170),
    Has(4, 5, 170),
    IsDone(0, false),
    Syncs(0, true),
    IsDone(0, true),
    Waits(0, false),
];

/// Another node reads what was written.
const READ: [Step; 13] = [
    Ticks(0),
    Ticks(1),
    Writes(0, 5, 170),
    Syncs(0, true),
    Syncs(0, true),
    Reads(1, 5),
    Brings(1, None),
    Waits(0, true),
    Syncs(0, true),
    Waits(0, false),
    Brings(0, None),
    Brings(1, Some(170)),
    Brings(1, None),
];

/// Nothing is served while a member is down.
const MEMBER_DOWN: [Step; 12] = [
    Ticks(0),
    Writes(0, 5, 170),
    Stops(Member(1)),
    Waits(0, false),
    Syncs(0, true),
    Has(3, 5, 0),
    Starts(Member(1)),
    Waits(0, true),
    Syncs(0, true),
    Syncs(0, true),
    IsDone(0, true),
    Has(4, 5, 170),
];

/// A crash of a node forgets what it had out.
const NODE_CRASHES: [Step; 12] = [
    Ticks(0),
    Writes(0, 5, 170),
    Reads(0, 5),
    Stops(Node(0)),
    IsDone(0, true),
    Waits(0, false),
    Syncs(0, true),
    Has(3, 5, 0),
    Brings(0, None),
    Ticks(0),
    Writes(0, 6, 85),
    IsDone(0, false),
];

/// A fault leaves a write out.
const FAULTS: [Step; 11] = [
    Ticks(0),
    Writes(0, 5, 170),
    Syncs(0, false),
    IsDone(0, false),
    Syncs(0, true),
    Has(4, 5, 170),
    Syncs(0, false),
    IsDone(0, false),
    Syncs(0, true),
    IsDone(0, true),
    Has(3, 5, 170),
];

/// Node 0 writes the block and gives it up to node 1, which reads what was written, and then has a write of its own out.
const HANDED_ON: [Step; 21] = [
    Ticks(0),
    Ticks(1),
    Wants(0),
    Wants(1),
    Holds(0, true),
    Holds(1, false),
    IsAsked(0, Some(2)),
    Writes(0, 5, 170),
    Syncs(0, true),
    IsDone(0, false),
    Syncs(0, true),
    IsDone(0, true),
    GivesUp(0),
    Holds(0, false),
    Holds(1, true),
    Reads(1, 5),
    Syncs(0, true),
    Brings(1, Some(170)),
    Holds(1, true),
    Writes(1, 5, 85),
    IsDone(1, false),
];

/// Node 1 stops before a sync: its write is forgotten, and nothing of it is read.
const STOPPED_EARLY: [Step; 16] = [
    Stops(Node(1)),
    Wants(0),
    Syncs(0, true),
    Holds(0, false),
    Starts(Node(1)),
    Ticks(1),
    IsAsked(1, Some(1)),
    Holds(1, true),
    Reads(1, 5),
    Syncs(0, true),
    Brings(1, Some(170)),
    GivesUp(1),
    Holds(0, true),
    Reads(0, 5),
    Syncs(0, true),
    Brings(0, Some(170)),
];

/// It stops between the two syncs: what it had written is read, and is written again before the block is given up.
const STOPPED_LATE: [Step; 21] = [
    Syncs(0, true),
    Stops(Node(1)),
    IsDone(1, true),
    Wants(0),
    Holds(0, false),
    Starts(Node(1)),
    Ticks(1),
    Holds(1, true),
    Reads(1, 5),
    Syncs(0, true),
    Brings(1, Some(85)),
    Holds(1, true),
    Writes(1, 5, 85),
    Syncs(0, true),
    Syncs(0, true),
    IsDone(1, true),
    GivesUp(1),
    Holds(0, true),
    Reads(0, 5),
    Syncs(0, true),
    Brings(0, Some(85)),
];

/// It doesn't stop.
const DONE: [Step; 10] = [
    Syncs(0, true),
    Wants(0),
    Syncs(0, true),
    IsDone(1, true),
    Holds(0, false),
    GivesUp(1),
    Holds(0, true),
    Reads(0, 5),
    Syncs(0, true),
    Brings(0, Some(85)),
];

#[test]
fn a_store_serves_nodes_also_of_a_shared_block(rt: HostRuntime) {
    for Case(name, faults, steps) in CASES {
        assert!(rt; runs(rt.alloc(), faults, steps) == Ok(true), "{name}");
    }
}
