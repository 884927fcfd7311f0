//! Machines that are made, and begin.

ghost use Rattle.std.specs.Prelude.{◌≡◌, ℕ, ◌+◌, ◌^◌, ◌<◌, ◌≤◌, ◌++◌, ◌∷◌, [], IfOk, IsErrOf, OnOk, slice_index};
ghost use Rattle.bx_cell.specs.Images.{EachSure};
ghost use Rattle.bx_disk.specs.Counts.{NoneRose};
ghost use Rattle.bx_disk.specs.Kept.{Counted};
ghost use Rattle.bx_facts.specs.Disks.{SameLabels, SameMembers};
ghost use Rattle.bx_facts.specs.Machines.{IsMachine};
ghost use Rattle.bx_facts.specs.declared.input.FactError.TheVariants.{Disk as DiskFails, OutOfMemory as MemoryFails};
ghost use Rattle.bx_global.specs.Allowed.{IsAllowed};
ghost use Rattle.bx_paxos.specs.Reading.{AreMade};
ghost use Rattle.bx_paxos_found.specs.Origins.{origin_in};
ghost use Rattle.bx_paxos_machines.specs.Beginning.{AreBegun, AreIdle, AreMachines, AreNew, HasFirst, IsCalm, IsNew, name_in};
ghost use Rattle.bx_paxos_machines.specs.Parts.{IsPart, name_of};

use crate::machine::Machine;
use bx_acceptor::{Acceptor, first_value};
use bx_base::{Actor, OutOfMemory};
use bx_cell::format_each;
use bx_disk::Rack;
use bx_facts::FactError;
use bx_global::GlobalState;
use bx_paxos::Replica;
use bx_paxos_found::Origins;
use bx_proposer::Proposer;
use std::alloc::Global;

/// The machines that are no nodes.
const FIXED: u32 = 13;

/// The name of the machine at a place.
fn name_at(place: u32) -> Actor
    ensures { result ≡ name_in place }
{
    if place < 3 {
        return Actor::Replica(place);
    }
    if place < 5 {
        return Actor::Server(place - 3);
    }
    if place < FIXED {
        return Actor::Member(place - 5);
    }
    Actor::Node(place - FIXED)
}

/// A machine of a cluster of so many nodes that begins with a state, and with cells that came to be so.
fn make(
    alloc: Global,
    at: Actor,
    nodes: u32,
    state: &GlobalState,
    origins: &Origins,
) -> Result<Machine, OutOfMemory>
    requires machine { IsMachine nodes at }
    requires state { IsAllowed state.now }
    requires index { state.now.index + 1 < 2 ^ 64 }
    ensures name { IfOk result (λ m. name_of m ≡ at) }
    ensures part { IfOk result (IsPart nodes state.now origins.now) }
    ensures new { IfOk result (IsNew state.now) }
{
    let proposer = Proposer::new(alloc, at, nodes, state)?;
    match at {
        Actor::Replica(replica) => {
            let acceptor = Acceptor::new(alloc, replica, state, origins.of(replica))?;
            Ok(Machine::Replica(Replica { acceptor, proposer }))
        }
        Actor::Node(_) | Actor::Server(_) | Actor::Member(_) => Ok(Machine::Other(proposer)),
    }
}

/// Puts a machine at the end.
fn put_last(all: &mut Vec<Machine>, machine: Machine) -> Result<(), OutOfMemory>
    ensures { OnOk result (all.new.items ≡ all.old.items ++ machine ∷ []) }
{
    all.push(machine)?;
    Ok(())
}

/// All machines of a cluster of so many nodes that begins with a state, and with cells that came to be so.
pub fn make_all(
    alloc: Global,
    nodes: u32,
    state: &GlobalState,
    origins: &Origins,
) -> Result<Vec<Machine>, OutOfMemory>
    requires few { nodes ≤ 16 }
    requires state { IsAllowed state.now }
    requires index { state.now.index + 1 < 2 ^ 64 }
    ensures machines { IfOk result (λ all. AreMachines nodes state.now origins.now all.items) }
    ensures new { IfOk result (λ all. AreNew state.now all.items) }
{
    let mut all = Vec::new(alloc);
    for place in 0..FIXED + nodes {
        let machine = make(alloc, name_at(place), nodes, state, origins)?;
        put_last(&mut all, machine)?;
    }
    Ok(all)
}

/// The same, each of which has begun over disks that have the first state in each cell.
pub fn begin_all<R: Rack>(
    alloc: Global,
    rack: &mut R,
    nodes: u32,
    state: &GlobalState,
    origins: &Origins,
) -> Result<Vec<Machine>, FactError>
    requires few { nodes ≤ 16 }
    requires state { IsAllowed state.now }
    requires made { AreMade (origin_in origins.now) }
    requires index { state.now.index + 1 < 2 ^ 64 }
    requires room { (n : ℕ) → n < 3 → 21 ≤ slice_index (R.state rack.old).sizes n }
    ensures machines { IfOk result (λ all. AreMachines nodes state.now origins.now all.items) }
    ensures begun { R.tells rack.old → HasFirst state.now (R.state rack.old).reads → IfOk result (λ all. AreBegun state.now (R.state rack.new) all.items) }
    ensures courses { IfOk result (λ all. AreIdle state.now all.items) }
    ensures calm { R.tells rack.old → IsCalm (R.state rack.old) (R.state rack.new) }
    ensures memory { IsErrOf result MemoryFails → NoneRose (R.faults rack.old) (R.faults rack.new) (R.faults_of rack.old) (R.faults_of rack.new) }
    ensures rack { Counted R.Rack rack.old rack.new result DiskFails }
{
    let mut all = Vec::new(alloc);
    for place in 0..FIXED + nodes {
        let machine = make(alloc, name_at(place), nodes, state, origins)?;
        let end = all.len();
        put_last(&mut all, machine)?;
        all[end].begin(rack)?;
    }
    Ok(all)
}

/// Writes the state into the cell of each replica, and begins all machines over these disks.
pub fn begin_anew<R: Rack>(
    alloc: Global,
    rack: &mut R,
    nodes: u32,
    state: &GlobalState,
    origins: &Origins,
) -> Result<Vec<Machine>, FactError>
    requires few { nodes ≤ 16 }
    requires state { IsAllowed state.now }
    requires made { AreMade (origin_in origins.now) }
    requires index { state.now.index + 1 < 2 ^ 64 }
    requires room { (n : ℕ) → n < 3 → 21 ≤ slice_index (R.state rack.old).sizes n }
    ensures machines { IfOk result (λ all. AreMachines nodes state.now origins.now all.items) }
    ensures begun { R.tells rack.old → IfOk result (λ all. AreBegun state.now (R.state rack.new) all.items) }
    ensures courses { IfOk result (λ all. AreIdle state.now all.items) }
    ensures cells { R.tells rack.old → OnOk result (EachSure (R.state rack.new) (HasFirst state.now)) }
    ensures members { R.tells rack.old → SameMembers (R.state rack.old) (R.state rack.new) × SameLabels (R.state rack.old) (R.state rack.new) }
    ensures memory { IsErrOf result MemoryFails → NoneRose (R.faults rack.old) (R.faults rack.new) (R.faults_of rack.old) (R.faults_of rack.new) }
    ensures rack { Counted R.Rack rack.old rack.new result DiskFails }
{
    let value = first_value(alloc, state)?;
    format_each(rack, 3, 1, value.bytes())?;
    begin_all(alloc, rack, nodes, state, origins)
}
