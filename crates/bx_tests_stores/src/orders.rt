//! What mirrored devices do, step by step.

use crate::letters::Look::{Brings, Has, IsDone, IsLabelled, IsLong, UnderWay, Waits};
use crate::letters::Step::{
    Comes, ComesAt, Crashes, Knows, Labels, Reads, Repeats, Shows, Starts, Stops, Syncs, Ticks,
    Writes,
};
use crate::letters::Told::{Asks, Fails, Nothing};
use crate::letters::Which::{Newest, Oldest};
use crate::letters::{A, B, N0, N1, Part, Shift, Step, runs};
use bx_disk::Noise;

/// What is tried, the calls of the rack that fail, and the steps.
#[derive(Clone, Copy)]
struct Case(&'static str, &'static [u64], &'static [Part]);

const CASES: [Case; 8] = [
    Case(
        "a member that is alone",
        &[],
        &[Part(1, &SERVES), Part(1, &ALONE)],
    ),
    Case("a write until 4000", &[], &[Part(1, &UNTIL_4000)]),
    Case("an answer with another tag", &[], &[Part(1, &TAGS)]),
    Case(
        "an old write and a boot that no state named",
        &[],
        &[Part(1, &STARTED), Part(1, &ANEW), Part(1, &OLD_WRITE)],
    ),
    Case(
        "an old write and a boot that a state named",
        &[],
        &[Part(1, &NAMED_EARLY), Part(1, &ANEW), Part(1, &TAKEN)],
    ),
    Case("a fault in a write", &[8], &[Part(1, &FAULT)]),
    Case(
        "an answer of an earlier epoch counts there",
        &[],
        &[Part(1, &MOVED_ON), Part(1, &COUNTS)],
    ),
    Case(
        "an answer of an earlier epoch doesn't count later",
        &[],
        &[Part(1, &MOVED_ON), Part(1, &COUNTS_NOT)],
    ),
];

/// Copies of A onto B, of 282 pieces: what is tried, the steps before its pieces but the last one, and those behind.
const COPIES: [(&str, &[Step], &[Step]); 3] = [
    ("a copy of one area", &JOINS, &JOINED),
    ("a write of an earlier epoch", &STALE_COPY, &STALE),
    ("a copy of a sector that is lost", &UNSURE, &LOST),
];

/// A write is done once both members have it surely, and then it is read.
const SERVES: [Step; 21] = [
    Writes(0, 5, 85, 5000),
    Shows(IsDone(0, false)),
    Comes(N0, A),
    Shows(Has(3, 5, 85)),
    Shows(Has(4, 5, 0)),
    Shows(Waits(A, true)),
    Syncs(A),
    Shows(Waits(A, false)),
    Comes(A, N0),
    Shows(IsDone(0, false)),
    Comes(N0, B),
    Shows(Has(4, 5, 85)),
    Syncs(B),
    Comes(B, N0),
    Shows(IsDone(0, true)),
    Reads(1, 5),
    Shows(Brings(1, None)),
    Comes(N1, A),
    Comes(A, N1),
    Shows(Brings(1, Some(85))),
    Shows(Brings(1, None)),
];

/// While one member is down, the other asks to go on alone once it is silent.
const ALONE: [Step; 12] = [
    Stops(B),
    Shows(Waits(B, false)),
    Writes(1, 6, 86, 5000),
    Comes(N1, A),
    Comes(N1, B),
    Shows(Has(3, 6, 86)),
    Shows(Has(4, 6, 0)),
    Syncs(A),
    Comes(A, N1),
    Shows(IsDone(1, false)),
    Ticks(A, 2000, Nothing),
    Ticks(A, 2001, Asks(Shift(1, 1, false, 0))),
];

/// A write until 4000 is taken at 4000, and not at 4001. What came before is answered again in time, and not written again.
const UNTIL_4000: [Step; 19] = [
    Writes(0, 5, 85, 4000),
    Repeats(Oldest, N0, A, 4000, Nothing),
    Shows(Waits(A, true)),
    Shows(Has(3, 5, 85)),
    ComesAt(Oldest, N0, B, 4001),
    Shows(Waits(B, false)),
    Shows(Has(4, 5, 0)),
    Syncs(A),
    ComesAt(Oldest, A, N0, 4001),
    Shows(IsDone(0, false)),
    Repeats(Oldest, N0, A, 4000, Nothing),
    Shows(UnderWay(A, N0, 1)),
    Shows(Waits(A, false)),
    ComesAt(Oldest, N0, A, 4001),
    Shows(UnderWay(A, N0, 1)),
    Shows(IsDone(0, false)),
    Stops(A),
    Crashes(3, Noise::Seed(1)),
    Shows(Has(3, 5, 85)),
];

/// Only an answer with the tag of the read that is out is its answer.
const TAGS: [Step; 14] = [
    Reads(1, 5),
    Shows(Brings(1, None)),
    Comes(N1, A),
    Repeats(Oldest, A, N1, 1000, Nothing),
    Shows(Brings(1, Some(0))),
    Shows(Brings(1, None)),
    Reads(1, 5),
    ComesAt(Oldest, A, N1, 1000),
    Shows(Brings(1, None)),
    Comes(N1, A),
    Comes(A, N1),
    Shows(Brings(1, Some(0))),
    Shows(Brings(1, None)),
    Shows(UnderWay(A, N1, 0)),
];

/// A letter of epoch 1 that is late, to a member that started again, in a boot that no row named before.
const STARTED: [Step; 6] = [
    Writes(0, 5, 17, 4000),
    Comes(N0, B),
    Stops(A),
    Starts(A, 6),
    Ticks(A, 1000, Asks(Shift(1, 0, false, 6))),
    Knows(0, 2, 6, 0),
];

/// The write is done in epoch 2, and a later one is sure on both members.
const ANEW: [Step; 14] = [
    Syncs(N0),
    ComesAt(Newest, N0, A, 1000),
    Comes(N0, B),
    Syncs(A),
    Syncs(B),
    Comes(A, N0),
    Comes(B, N0),
    Comes(B, N0),
    Shows(IsDone(0, true)),
    Writes(0, 5, 34, 4000),
    ComesAt(Newest, N0, A, 1000),
    Comes(N0, B),
    Syncs(A),
    Syncs(B),
];

const OLD_WRITE: [Step; 7] = [
    Stops(A),
    Starts(A, 7),
    Knows(0, 1, 0, 0),
    Repeats(Oldest, N0, A, 1000, Nothing),
    Knows(0, 2, 6, 0),
    Comes(N0, A),
    Shows(Has(3, 5, 34)),
];

/// Where a state names a boot that A has later, as no state does that a cluster begins with, A takes the old letter then: the later write is lost on A.
const NAMED_EARLY: [Step; 7] = [
    Knows(0, 1, 7, 0),
    Writes(0, 5, 17, 4000),
    Comes(N0, B),
    Repeats(Oldest, N0, A, 1000, Nothing),
    Shows(Waits(A, false)),
    Ticks(A, 1000, Asks(Shift(1, 0, false, 0))),
    Knows(0, 2, 0, 0),
];

const TAKEN: [Step; 6] = [
    Shows(Has(3, 5, 34)),
    Stops(A),
    Starts(A, 7),
    Knows(0, 1, 7, 0),
    Comes(N0, A),
    Shows(Has(3, 5, 17)),
];

/// A disk fails as the second write is put: it is neither noted nor owed, and what was taken before isn't taken again. When it comes again, it is taken.
const FAULT: [Step; 30] = [
    Writes(0, 5, 85, 4000),
    Repeats(Oldest, N0, A, 1000, Nothing),
    Syncs(A),
    Comes(N0, B),
    Syncs(B),
    Comes(A, N0),
    Comes(B, N0),
    Shows(IsDone(0, true)),
    Writes(0, 5, 34, 4000),
    Repeats(Newest, N0, A, 1000, Fails),
    Shows(Waits(A, false)),
    Shows(Has(3, 5, 85)),
    Repeats(Oldest, N0, A, 1000, Nothing),
    Shows(UnderWay(A, N0, 1)),
    Shows(Waits(A, false)),
    Shows(Has(3, 5, 85)),
    Repeats(Newest, N0, A, 1000, Nothing),
    Shows(Waits(A, true)),
    Comes(N0, A),
    Shows(Has(3, 5, 34)),
    Syncs(A),
    Shows(UnderWay(A, N0, 3)),
    Comes(N0, B),
    Syncs(B),
    Comes(B, N0),
    ComesAt(Newest, A, N0, 1000),
    Shows(IsDone(0, false)),
    Comes(A, N0),
    Comes(A, N0),
    Shows(IsDone(0, true)),
];

/// A takes a write in epoch 1, learns that B is alone in epoch 2, and then syncs: it answers as of epoch 1.
const MOVED_ON: [Step; 8] = [
    Writes(0, 5, 85, 4000),
    Comes(N0, A),
    Shows(Waits(A, true)),
    Knows(2, 2, 0, 0),
    Ticks(A, 1000, Asks(Shift(2, 4, false, 0))),
    Shows(Waits(A, true)),
    Syncs(A),
    Shows(UnderWay(A, N0, 1)),
];

/// A node that knows epoch 1 needs this answer and B's.
const COUNTS: [Step; 7] = [
    Knows(0, 1, 0, 0),
    Comes(A, N0),
    Shows(IsDone(0, false)),
    Comes(N0, B),
    Syncs(B),
    Comes(B, N0),
    Shows(IsDone(0, true)),
];

/// A node that knows epoch 2 needs B's of epoch 2 alone.
const COUNTS_NOT: [Step; 10] = [
    Comes(A, N0),
    Shows(IsDone(0, false)),
    Comes(N0, B),
    Shows(Waits(B, false)),
    Comes(N0, B),
    Shows(Waits(B, true)),
    Syncs(B),
    Shows(IsDone(0, false)),
    Comes(B, N0),
    Shows(IsDone(0, true)),
];

/// B, which has the label of something else, gets its own, joins, and is copied to.
const JOINS: [Step; 17] = [
    Knows(1, 2, 0, 0),
    Stops(B),
    Labels(4, 99),
    Shows(IsLabelled(4, 99)),
    Starts(B, 1),
    Shows(IsLabelled(4, 7)),
    Syncs(N0),
    Writes(0, 5, 85, 4000),
    Comes(N0, A),
    Syncs(A),
    Comes(A, N0),
    Shows(IsDone(0, true)),
    Ticks(B, 1000, Asks(Shift(2, 3, true, 1))),
    Knows(3, 3, 0, 1),
    Comes(B, A),
    Shows(UnderWay(A, B, 1)),
    Shows(IsLong(A, B, 32788)),
];

/// A piece of a copy of A is taken and acknowledged, and the next one goes.
const PIECE: [Step; 3] = [Comes(A, B), Syncs(B), Comes(B, A)];

/// The last of 282 pieces has 9 sectors. Behind it A asks for both members.
const JOINED: [Step; 9] = [
    Shows(IsLong(A, B, 4628)),
    Comes(A, B),
    Syncs(B),
    Repeats(Oldest, B, A, 1000, Asks(Shift(3, 0, false, 0))),
    Shows(UnderWay(A, B, 0)),
    Knows(0, 4, 0, 1),
    Syncs(B),
    Shows(Has(4, 5, 85)),
    Shows(IsLabelled(4, 7)),
];

/// Node 1 knows epoch 2, in which A is alone; then B is copied to.
const STALE_COPY: [Step; 6] = [
    Knows(1, 2, 0, 0),
    Stops(B),
    Starts(B, 1),
    Syncs(N1),
    Knows(3, 3, 0, 1),
    Syncs(A),
];

/// Node 0's write is done in epoch 5 by B alone; A takes it too, still in epoch 4. Node 1's later write, sent in epoch 2, is not done there, nor in epoch 4, but
/// once B has it.
const STALE: [Step; 39] = [
    Comes(A, B),
    Syncs(B),
    Repeats(Oldest, B, A, 1000, Asks(Shift(3, 0, false, 0))),
    Knows(0, 4, 0, 1),
    Syncs(A),
    Syncs(N0),
    Writes(0, 5, 85, 4000),
    Ticks(B, 3001, Asks(Shift(4, 2, true, 1))),
    Knows(2, 5, 0, 1),
    Syncs(N0),
    ComesAt(Oldest, N0, B, 3001),
    Shows(Waits(B, false)),
    ComesAt(Oldest, N0, B, 3001),
    Shows(Waits(B, true)),
    Syncs(B),
    ComesAt(Oldest, B, N0, 3001),
    Shows(IsDone(0, true)),
    Knows(0, 4, 0, 1),
    ComesAt(Oldest, N0, A, 3100),
    Shows(Has(3, 5, 85)),
    Writes(1, 5, 34, 8600),
    ComesAt(Oldest, N1, A, 4600),
    Shows(Has(3, 5, 85)),
    Syncs(N1),
    ComesAt(Oldest, N1, A, 4600),
    Shows(Has(3, 5, 34)),
    Syncs(A),
    ComesAt(Oldest, A, N1, 4600),
    Shows(IsDone(1, false)),
    Knows(2, 5, 0, 1),
    Shows(UnderWay(N1, B, 1)),
    ComesAt(Oldest, N1, B, 4600),
    Shows(Has(4, 5, 85)),
    Syncs(N1),
    ComesAt(Oldest, N1, B, 4600),
    Syncs(B),
    ComesAt(Oldest, B, N1, 4600),
    Shows(IsDone(1, true)),
    Shows(Has(4, 5, 34)),
];

/// A takes a write alone, and isn't synced; B joins, and A begins to copy.
const UNSURE: [Step; 10] = [
    Knows(1, 2, 0, 0),
    Stops(B),
    Starts(B, 1),
    Syncs(N0),
    Writes(0, 5, 85, 4000),
    Comes(N0, A),
    Shows(Waits(A, true)),
    Ticks(B, 1000, Asks(Shift(2, 3, true, 1))),
    Knows(3, 3, 0, 1),
    Comes(B, A),
];

/// Once the change to both members was asked for, A loses the sector that B has. The write isn't done, and is in the next epoch, when both have it.
const LOST: [Step; 22] = [
    Comes(A, B),
    Syncs(B),
    Repeats(Oldest, B, A, 1000, Asks(Shift(3, 0, false, 0))),
    Shows(Has(4, 5, 85)),
    Stops(A),
    Crashes(3, Noise::Drop),
    Shows(Has(3, 5, 0)),
    Knows(0, 4, 0, 1),
    Starts(A, 2),
    Ticks(A, 1000, Asks(Shift(4, 0, false, 2))),
    Shows(IsDone(0, false)),
    Knows(0, 5, 2, 1),
    Syncs(N0),
    Comes(N0, A),
    Comes(N0, B),
    Shows(Waits(B, true)),
    Syncs(A),
    Syncs(B),
    Comes(A, N0),
    Comes(B, N0),
    Shows(IsDone(0, true)),
    Shows(Has(3, 5, 85)),
];

#[test]
fn mirrored_devices_go_step_by_step(rt: HostRuntime) {
    for Case(name, faults, parts) in CASES {
        assert_eq!(rt; runs(rt.alloc(), faults, parts), Ok(None), "{name}");
    }
}

#[test]
fn a_member_is_copied_step_by_step(rt: HostRuntime) {
    for (name, before, behind) in COPIES {
        let parts = [Part(1, before), Part(281, &PIECE), Part(1, behind)];
        assert_eq!(rt; runs(rt.alloc(), &[], &parts), Ok(None), "{name}");
    }
}
