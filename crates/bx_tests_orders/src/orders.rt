//! Node 0 and server 0 propose changes of which only one can be made, at one index. Packets come in six orders, and a replica stops and
//! starts again between. A node's ballot comes before a server's of the same round.

use crate::cluster::{Cluster, FIRST, Mark, NODE, SERVER, Told, shift};
use bx_base::Actor;
use std::alloc::Global;

/// The replicas.
const P0: Actor = Actor::Replica(0);

const P1: Actor = Actor::Replica(1);

const P2: Actor = Actor::Replica(2);

/// The state that the node's change makes, and the one that the server's makes.
const OF_NODE: Mark = Mark(2, 5);

const OF_SERVER: Mark = Mark(2, 9);

/// How many packets may come behind those of an order until all machines know what was decided.
const ENOUGH: u32 = 400;

/// What is done next.
#[derive(Clone, Copy)]
enum Step {
    /// The oldest packet from one machine to another comes.
    Pass(Actor, Actor),
    /// A replica stops and starts again.
    Turn(u32),
}

use Step::{Pass, Turn};

/// The node's change is decided before anything of the server comes.
const NODE_IS_FIRST: [Step; 9] = [
    Pass(NODE, P0),
    Pass(NODE, P1),
    Pass(P0, NODE),
    Turn(0),
    Pass(P1, NODE),
    Pass(NODE, P0),
    Pass(NODE, P1),
    Pass(P0, NODE),
    Pass(P1, NODE),
];

/// The server's change is decided before anything of the node comes.
const SERVER_IS_FIRST: [Step; 9] = [
    Pass(SERVER, P1),
    Pass(SERVER, P2),
    Pass(P2, SERVER),
    Pass(P1, SERVER),
    Pass(SERVER, P2),
    Turn(2),
    Pass(SERVER, P1),
    Pass(P1, SERVER),
    Pass(P2, SERVER),
];

/// The server is promised its ballot before the node's accepts come, which are refused.
const PREPARES_CROSS: [Step; 13] = [
    Pass(NODE, P0),
    Pass(NODE, P1),
    Pass(P0, NODE),
    Pass(P1, NODE),
    Pass(SERVER, P0),
    Pass(SERVER, P1),
    Turn(1),
    Pass(NODE, P0),
    Pass(NODE, P1),
    Pass(P0, SERVER),
    Pass(P1, SERVER),
    Pass(SERVER, P0),
    Pass(SERVER, P1),
];

/// One replica accepts the node's state, and tells the server of it.
const SERVER_HEARS_OF_ONE: [Step; 10] = [
    Pass(NODE, P0),
    Pass(NODE, P1),
    Pass(P0, NODE),
    Pass(P1, NODE),
    Pass(NODE, P0),
    Turn(0),
    Pass(SERVER, P0),
    Pass(SERVER, P2),
    Pass(P2, SERVER),
    Pass(P0, SERVER),
];

/// One replica accepts the node's state, and the server is promised its ballot by the others.
const SERVER_HEARS_OF_NONE: [Step; 12] = [
    Pass(NODE, P0),
    Pass(NODE, P1),
    Pass(P0, NODE),
    Pass(P1, NODE),
    Pass(NODE, P0),
    Turn(0),
    Pass(SERVER, P1),
    Pass(SERVER, P2),
    Pass(P1, SERVER),
    Pass(P2, SERVER),
    Pass(SERVER, P1),
    Pass(SERVER, P2),
];

/// The node is refused, and overtakes the server in a later ballot before that one's accepts come.
const NODE_OVERTAKES: [Step; 16] = [
    Pass(SERVER, P2),
    Pass(SERVER, P1),
    Pass(NODE, P2),
    Pass(NODE, P1),
    Pass(P2, SERVER),
    Pass(P1, SERVER),
    Pass(P2, NODE),
    Pass(NODE, P2),
    Pass(NODE, P1),
    Turn(2),
    Pass(SERVER, P2),
    Pass(SERVER, P1),
    Pass(P2, NODE),
    Pass(P1, NODE),
    Pass(P1, NODE),
    Pass(NODE, P1),
];

/// The orders, and what is decided in each.
const ORDERS: [(&'static [Step], Mark); 6] = [
    (&NODE_IS_FIRST, OF_NODE),
    (&SERVER_IS_FIRST, OF_SERVER),
    (&PREPARES_CROSS, OF_SERVER),
    (&SERVER_HEARS_OF_ONE, OF_NODE),
    (&SERVER_HEARS_OF_NONE, OF_SERVER),
    (&NODE_OVERTAKES, OF_NODE),
];

/// A cluster in which the node has proposed its change, and the server the one with this boot.
fn proposed(alloc: Global, boot: u64) -> Option<Cluster> {
    let mut cluster = Cluster::new(alloc)?;
    let node = cluster.propose(NODE, &shift(1, 5));
    let server = cluster.propose(SERVER, &shift(1, boot));
    if node == Told::Taken && server == Told::Taken {
        Some(cluster)
    } else {
        None
    }
}

/// Does one step, and says whether that went well.
fn does(cluster: &mut Cluster, step: Step) -> bool {
    match step {
        Pass(from, to) => cluster.passes(from, to),
        Turn(replica) => cluster.starts_again(replica),
    }
}

/// Whether in this order, where the server proposes the change with this boot, that state alone is decided: machines know nothing else at
/// any time, and all know it in the end.
fn decides(alloc: Global, boot: u64, order: &[Step], mark: Mark) -> bool {
    let Some(mut cluster) = proposed(alloc, boot) else {
        return false;
    };
    for step in order {
        if !does(&mut cluster, *step) || !cluster.all_know(&[FIRST, mark]) {
            return false;
        }
    }
    for _ in 0..ENOUGH {
        if !cluster.goes_on() || !cluster.all_know(&[FIRST, mark]) {
            return false;
        }
    }
    cluster.all_know(&[mark])
}

#[test]
fn one_of_two_changes_is_decided(rt: HostRuntime) {
    for (number, (order, mark)) in ORDERS.iter().enumerate() {
        assert!(rt; decides(rt.alloc(), 9, order, *mark), "order {number}");
    }
}

#[test]
fn a_change_that_two_propose_is_made_once(rt: HostRuntime) {
    for (number, (order, _)) in ORDERS.iter().enumerate() {
        assert!(rt; decides(rt.alloc(), 5, order, OF_NODE), "order {number}");
    }
}
