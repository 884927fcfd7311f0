//! What replicas answer to packets, in order, and when they say nothing.

use crate::replicas::Step::{Answers, Knows, Starts};
use crate::replicas::{Disk, Life, Sent, Step, Told, lives, rack_of};
use bx_acceptor::Origin;
use std::alloc::Global;

/// What is tried, the disk, and lives of the replica on it, one after the other.
#[derive(Clone, Copy)]
struct Case(&'static str, Disk, &'static [Life]);

const CASES: [Case; 7] = [
    Case(
        "one answers as the table says",
        Disk::Made,
        &[Life(Origin::Made, &ANSWERS)],
    ),
    Case(
        "a cell that was found keeps its promise alone",
        Disk::Made,
        &[Life(Origin::Made, &LEFT), Life(Origin::Found(3), &FOUND)],
    ),
    Case(
        "a cell that was put since it was found counts",
        Disk::Made,
        &[Life(Origin::Made, &LEFT), Life(Origin::Found(2), &PUT)],
    ),
    Case(
        "one that takes no part is silent",
        Disk::Made,
        &[Life(Origin::Made, &LEFT), Life(Origin::Apart, &APART)],
    ),
    Case(
        "without a cell one is silent",
        Disk::Blank,
        &[Life(Origin::Made, &NO_ASK), Life(Origin::Made, &NO_ANSWER)],
    ),
    Case(
        "states that have no index behind them are passed over",
        Disk::Made,
        &[Life(Origin::Made, &LAST_INDEX)],
    ),
    Case(
        "with the greatest number one answers asks alone",
        Disk::Last,
        &[Life(Origin::Made, &NO_ASK), Life(Origin::Made, &ASK)],
    ),
];

/// On the disk of a new volume.
const ANSWERS: [Step; 15] = [
    Starts,
    Answers(Sent(1, 0, 0, 0), Told::Decided(1)),
    Answers(Sent(3, 1, 0, 1), Told::Promise(1, 0, 2, 0)),
    Answers(Sent(3, 1, 0, 1), Told::Refused(2, 1, 0)),
    Answers(Sent(3, 1, 32, 1), Told::Promise(1, 32, 2, 0)),
    Answers(Sent(5, 1, 0, 2), Told::Refused(2, 1, 32)),
    Answers(Sent(5, 1, 32, 2), Told::Accepted(1, 32, 2)),
    Answers(Sent(5, 1, 32, 1), Told::Decided(1)),
    Answers(Sent(5, 1, 32, 3), Told::Nothing),
    Answers(Sent(3, 2, 0, 1), Told::Promise(2, 0, 2, 1)),
    Answers(Sent(2, 0, 0, 4), Told::Nothing),
    Answers(Sent(1, 0, 0, 0), Told::Decided(4)),
    Answers(Sent(3, 2, 0, 3), Told::Decided(4)),
    Answers(Sent(3, 2, 0, 6), Told::Refused(7, 2, 0)),
    Knows(6),
];

/// Ballot 3 of server 0 is promised, and a state of index 2 accepted in it. The cell has number 3 then.
const LEFT: [Step; 3] = [
    Starts,
    Answers(Sent(3, 3, 32, 1), Told::Promise(3, 32, 2, 0)),
    Answers(Sent(5, 3, 32, 2), Told::Accepted(3, 32, 2)),
];

/// An ask, an older prepare, a later one, and that one again after another start.
const FOUND: [Step; 6] = [
    Starts,
    Answers(Sent(1, 0, 0, 0), Told::Decided(1)),
    Answers(Sent(3, 2, 0, 1), Told::Refused(2, 3, 32)),
    Answers(Sent(3, 4, 0, 1), Told::Promise(4, 0, 2, 0)),
    Starts,
    Answers(Sent(3, 4, 0, 1), Told::Refused(2, 4, 0)),
];

/// The same packets.
const PUT: [Step; 6] = [
    Starts,
    Answers(Sent(1, 0, 0, 0), Told::Decided(1)),
    Answers(Sent(3, 2, 0, 1), Told::Refused(2, 3, 32)),
    Answers(Sent(3, 4, 0, 1), Told::Promise(4, 0, 2, 1)),
    Starts,
    Answers(Sent(3, 4, 0, 1), Told::Refused(2, 4, 0)),
];

const APART: [Step; 6] = [
    Starts,
    Answers(Sent(1, 0, 0, 0), Told::Nothing),
    Answers(Sent(3, 2, 0, 1), Told::Nothing),
    Answers(Sent(3, 4, 0, 1), Told::Nothing),
    Starts,
    Answers(Sent(3, 4, 0, 1), Told::Nothing),
];

const LAST_INDEX: [Step; 4] = [
    Starts,
    Answers(Sent(2, 0, 0, u64::MAX), Told::Nothing),
    Answers(Sent(3, 1, 0, u64::MAX), Told::Nothing),
    Knows(1),
];

/// A packet of each kind but the ask, and of kinds that aren't for an acceptor, or are no message.
const NO_ASK: [Step; 8] = [
    Starts,
    Answers(Sent(2, 0, 0, 5), Told::Nothing),
    Answers(Sent(3, 1, 0, 1), Told::Nothing),
    Answers(Sent(4, 1, 0, 1), Told::Nothing),
    Answers(Sent(5, 1, 0, 2), Told::Nothing),
    Answers(Sent(6, 1, 0, 2), Told::Nothing),
    Answers(Sent(8, 1, 0, 2), Told::Nothing),
    Knows(1),
];

const NO_ANSWER: [Step; 3] = [Starts, Answers(Sent(1, 0, 0, 0), Told::Nothing), Knows(1)];

const ASK: [Step; 2] = [Starts, Answers(Sent(1, 0, 0, 0), Told::Decided(1))];

/// Whether all lives of a case come out so.
fn all_live(alloc: Global, disk: Disk, all: &[Life]) -> bool {
    let Some(mut rack) = rack_of(alloc, disk) else {
        return false;
    };
    let mut right = true;
    for life in all {
        right = right && lives(alloc, &mut rack, *life);
    }
    right
}

#[test]
fn a_replica_answers_what_it_may(rt: HostRuntime) {
    for Case(name, disk, all) in CASES {
        assert!(rt; all_live(rt.alloc(), disk, all), "{name}");
    }
}
