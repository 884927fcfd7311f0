//! Two nodes that touch different directories: neither sees anything of the other.

ghost use Rattle.std.specs.Prelude.{◌≡◌, ◌<◌, IfOk, OnOk};
ghost use Rattle.bx_tests_nodes.specs.Desks.{IsReady};

use crate::calls::{Ask, File};
use crate::desk::{Desk, Look, VOLUME, begin, runs, shape};
use crate::recovered::recovers;
use bx_base::OutOfMemory;
use bx_disk::Rack;
use bx_facts::{FactError, Owners, Register, Store};
use bx_memory_rack::MemRack;
use bx_node_tries::Said;
use bx_plain_parts::PlainParts;
use bx_views::Engine;
use std::alloc::Global;
use std::test::Fail;

/// The first directory that is made in a new volume.
const FIRST: File = File(2, 1);

/// The second.
const SECOND: File = File(4, 1);

/// A call by its number: in which round it comes, to which node, and what it asks for.
#[derive(Clone, Copy)]
struct Coming(u32, u32, u32, Ask);

const CALLS: [Coming; 6] = [
    Coming(1, 0, 0, Ask::Set(FIRST, 0o700)),
    Coming(2, 1, 1, Ask::Set(SECOND, 0o711)),
    Coming(3, 3, 0, Ask::Get(FIRST)),
    Coming(4, 9, 1, Ask::Get(SECOND)),
    Coming(5, 10, 1, Ask::Set(SECOND, 0o722)),
    Coming(6, 12, 0, Ask::Set(FIRST, 0o733)),
];

/// How many rounds the nodes have: in the last ones nothing is left to do.
const ROUNDS: u32 = 40;

/// What was seen of a node round by round, what it answered, and whether no turn of the other changed what was seen.
#[derive(Drop)]
struct Diary {
    node: u32,
    /// Whether the other node does nothing.
    is_alone: bool,
    looks: Vec<Look>,
    said: Vec<Said>,
    is_left: bool,
}

/// Disks at rest, with two directories.
fn disks(alloc: Global) -> Result<MemRack, FactError> {
    let mut rack = MemRack::new(alloc, &[], &[])?;
    PlainParts::begin(alloc, &mut rack, VOLUME, shape(1))?;
    let mut desk = begin(alloc, 1)?;
    desk.call(0, 1, 0, Ask::Make(b'a'))?;
    desk.call(0, 2, 0, Ask::Make(b'b'))?;
    runs(&mut desk, &mut rack, ROUNDS, 1000)?;
    recovers(alloc, &mut rack, 2)?;
    Ok(rack)
}

/// The calls of a round come to a node.
fn come<G: Register, O: Owners, S: Store, E: Engine>(
    desk: &mut Desk<G, O, S, E>,
    node: u32,
    round: u32,
) -> Result<(), OutOfMemory>
    requires there { node < desk.old.count }
    requires ready { IsReady G.Register S.Store E.Engine desk.old.nodes desk.old.count }
    ensures ready { OnOk result (IsReady G.Register S.Store E.Engine desk.new.nodes desk.new.count) }
    ensures count { desk.new.count ≡ desk.old.count }
{
    for Coming(number, when, at, ask) in CALLS {
        if when == round && at == node {
            desk.call(node, number, 0, ask)?;
        }
    }
    Ok(())
}

/// A node has its turn in a round, with the calls that come.
fn turn<G: Register, O: Owners, S: Store, E: Engine>(
    desk: &mut Desk<G, O, S, E>,
    node: u32,
    round: u32,
) -> Result<Vec<Said>, OutOfMemory>
    requires there { node < desk.old.count }
    requires ready { IsReady G.Register S.Store E.Engine desk.old.nodes desk.old.count }
    ensures ready { OnOk result (IsReady G.Register S.Store E.Engine desk.new.nodes desk.new.count) }
    ensures count { desk.new.count ≡ desk.old.count }
{
    come(desk, node, round)?;
    desk.turn(node, 2000)
}

fn is_same(one: &Said, other: &Said) -> bool {
    one.point == other.point
        && one.client == other.client
        && one.call.bytes() == other.call.bytes()
        && one.reply.bytes() == other.reply.bytes()
}

impl Diary {
    /// Nothing was seen yet.
    fn new(alloc: Global, node: u32, is_alone: bool) -> Diary
        ensures { result.node ≡ node }
    {
        Diary {
            node,
            is_alone,
            looks: Vec::new(alloc),
            said: Vec::new(alloc),
            is_left: true,
        }
    }

    /// A node has its turn in a round, where it isn't to do nothing.
    fn turn<G: Register, O: Owners, S: Store, E: Engine>(
        &mut self,
        desk: &mut Desk<G, O, S, E>,
        at: u32,
        round: u32,
    ) -> Result<(), OutOfMemory>
        requires there { (at < desk.old.count) × (self.old.node < desk.old.count) }
        requires ready { IsReady G.Register S.Store E.Engine desk.old.nodes desk.old.count }
        ensures ready { OnOk result (IsReady G.Register S.Store E.Engine desk.new.nodes desk.new.count) }
        ensures count { desk.new.count ≡ desk.old.count }
        ensures node { self.new.node ≡ self.old.node }
    {
        if at == self.node {
            let mut said = turn(desk, at, round)?;
            self.said.append(&mut said)?;
            return Ok(());
        }
        if self.is_alone {
            return Ok(());
        }
        let before = desk.look(self.node);
        turn(desk, at, round)?;
        self.is_left = self.is_left && desk.look(self.node) == before;
        Ok(())
    }

    /// Both nodes have their turns in a round, and then the node is looked at.
    fn turns<G: Register, O: Owners, S: Store, E: Engine>(
        &mut self,
        desk: &mut Desk<G, O, S, E>,
        round: u32,
    ) -> Result<(), OutOfMemory>
        requires both { desk.old.count ≡ 2 }
        requires there { self.old.node < 2 }
        requires ready { IsReady G.Register S.Store E.Engine desk.old.nodes desk.old.count }
        ensures ready { OnOk result (IsReady G.Register S.Store E.Engine desk.new.nodes desk.new.count) }
        ensures count { desk.new.count ≡ desk.old.count }
        ensures node { self.new.node ≡ self.old.node }
    {
        self.turn(desk, 0, round)?;
        self.turn(desk, 1, round)?;
        self.looks.push(desk.look(self.node))?;
        Ok(())
    }

    /// All rounds: a sync in each, and then the turns.
    fn rounds<G: Register, O: Owners, S: Store, E: Engine, R: Rack>(
        &mut self,
        desk: &mut Desk<G, O, S, E>,
        rack: &mut R,
    ) -> Result<(), FactError>
        requires both { desk.old.count ≡ 2 }
        requires there { self.old.node < 2 }
        requires ready { IsReady G.Register S.Store E.Engine desk.old.nodes desk.old.count }
    {
        for round in 0..ROUNDS {
            desk.sync(rack)?;
            self.turns(desk, round)?;
        }
        Ok(())
    }

    /// Whether the same was seen and answered.
    fn is_same(&self, other: &Diary) -> bool {
        self.looks == other.looks
            && self.said.len() == other.said.len()
            && self
                .said
                .iter()
                .zip(other.said.iter())
                .all(|(one, other)| is_same(one, other))
    }
}

/// What is seen of a node, where the other works too, or does nothing.
fn life(alloc: Global, node: u32, is_alone: bool) -> Result<Diary, FactError>
    requires there { node < 2 }
{
    let mut rack = disks(alloc)?;
    let mut desk = begin(alloc, 2)?;
    let mut diary = Diary::new(alloc, node, is_alone);
    diary.rounds(&mut desk, &mut rack)?;
    Ok(diary)
}

#[test]
fn two_nodes_leave_each_other_alone(rt: HostRuntime) -> Result<(), Fail> {
    for node in 0..2 {
        let alone = life(rt.alloc(), node, true)?;
        let beside = life(rt.alloc(), node, false)?;
        assert!(rt; beside.is_left && beside.said.len() == 3, "node {node}");
        assert!(rt; beside.is_same(&alone), "node {node}");
    }
    Ok(())
}
