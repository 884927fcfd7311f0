//! The machines, by their names and their numbers.

ghost use Rattle.std.specs.Prelude.{◌≡◌, ℕ, ◌<◌, ◌≤◌, ◌++◌, filter, IfOk, OnOk};
ghost use Rattle.bx_facts.specs.Machines.{IsMachine, is_same};
ghost use Rattle.bx_proposer.specs.Names.{first_members, first_nodes, is_other, number_of, others_of};

use bx_base::{Actor, List, OutOfMemory};
use std::alloc::Global;

/// The replicas.
pub(crate) const REPLICAS: [Actor; 3] = [Actor::Replica(0), Actor::Replica(1), Actor::Replica(2)];

/// The lock servers.
const SERVERS: [Actor; 2] = [Actor::Server(0), Actor::Server(1)];

/// The number of a machine in its ballots: a node's own number, and above those the replicas' from 16 on, the servers' from 32 on
/// and the members' from 48 on.
pub fn actor_number(who: Actor) -> u32
    requires { (nodes : ℕ) × IsMachine nodes who }
    ensures { result ≡ number_of who }
{
    match who {
        Actor::Node(n) => n,
        Actor::Replica(n) => 16 + n,
        Actor::Server(n) => 32 + n,
        Actor::Member(n) => 48 + n,
    }
}

/// Whether two names are one machine's.
pub fn is_same_machine(one: &Actor, other: &Actor) -> bool
    ensures { result ≡ is_same one.now other.now }
{
    match (one, other) {
        (Actor::Node(n), Actor::Node(m)) => n == m,
        (Actor::Replica(n), Actor::Replica(m)) => n == m,
        (Actor::Server(n), Actor::Server(m)) => n == m,
        (Actor::Member(n), Actor::Member(m)) => n == m,
        _ => false,
    }
}

/// All machines of a cluster of so many nodes and devices but one, in their order: nodes, replicas, servers, members A and
/// members B.
pub(crate) fn others_of(
    alloc: Global,
    me: Actor,
    nodes: u32,
    devices: u32,
) -> Result<List<Actor>, OutOfMemory>
    requires { devices ≤ 4 }
    ensures { IfOk result (λ others. others ≡ others_of me nodes devices) }
{
    let mut all = Vec::new(alloc);
    push_nodes(&mut all, nodes)?;
    all.extend_from_slice(&REPLICAS)?;
    all.extend_from_slice(&SERVERS)?;
    push_members(&mut all, 0, devices)?;
    push_members(&mut all, 1, devices)?;
    take_out(&mut all, &me);
    Ok(List::from(all))
}

/// Puts the first nodes at the end.
fn push_nodes(all: &mut Vec<Actor>, nodes: u32) -> Result<(), OutOfMemory>
    ensures { OnOk result (all.new.items ≡ all.old.items ++ first_nodes nodes) }
{
    for node in 0..nodes {
        all.push(Actor::Node(node))?;
    }
    Ok(())
}

/// Puts members A or members B of the first devices at the end.
fn push_members(all: &mut Vec<Actor>, side: u32, devices: u32) -> Result<(), OutOfMemory>
    requires few { devices ≤ 4 }
    requires side { side < 2 }
    ensures { OnOk result (all.new.items ≡ all.old.items ++ first_members side devices) }
{
    for device in 0..devices {
        all.push(Actor::Member(2 * device + side))?;
    }
    Ok(())
}

/// Takes a machine out.
fn take_out(machines: &mut Vec<Actor>, who: &Actor)
    ensures { machines.new.items ≡ filter (is_other who.now) machines.old.items }
{
    machines.retain(|machine| !is_same_machine(who, machine));
}
