//! The machines of a cluster that are up, and those that are down.

ghost use Rattle.std.specs.Prelude.{◌≡◌, ◌≤◌, IfOk, length};
ghost use Rattle.bx_facts.specs.Machines.{disk_of};
ghost use Rattle.bx_world_events.specs.Causes.{IsThere};
ghost use Rattle.bx_driver.specs.Machines.{AreInTurn, HasDiskNumbers, IsDown, IsUp, machines_of};

use bx_base::{Actor, List, OutOfMemory};
use bx_world_events::{REPLICAS, SERVERS, Shows};
use std::alloc::Global;

/// All machines, in their order: nodes, replicas, lock servers, members A of all devices, members B.
fn machines<C: Shows>(alloc: Global, cluster: &C) -> Result<Vec<Actor>, OutOfMemory>
    requires { HasDiskNumbers (C.seen cluster.now) }
    ensures turn { IfOk result (λ all. AreInTurn (IsThere (C.seen cluster.now)) all.items) }
    ensures few { IfOk result (λ all. length all.items ≡ machines_of (C.seen cluster.now)) }
{
    let mut all = Vec::new(alloc);
    for node in 0..cluster.nodes() {
        all.push(Actor::Node(node))?;
    }
    for replica in 0..REPLICAS {
        all.push(Actor::Replica(replica))?;
    }
    for server in 0..SERVERS {
        all.push(Actor::Server(server))?;
    }
    for device in 0..cluster.devices() {
        all.push(Actor::Member(2 * device))?;
    }
    for device in 0..cluster.devices() {
        all.push(Actor::Member(2 * device + 1))?;
    }
    Ok(all)
}

/// The machines that are up, in their order: where all crash, these do, one after the other.
pub fn machines_up<C: Shows>(alloc: Global, cluster: &C) -> Result<List<Actor>, OutOfMemory>
    requires { HasDiskNumbers (C.seen cluster.now) }
    ensures turn { IfOk result (λ up. AreInTurn (IsUp (C.seen cluster.now)) up) }
    ensures few { IfOk result (λ up. length up ≤ machines_of (C.seen cluster.now)) }
{
    let mut all = machines(alloc, cluster)?;
    all.retain(|who| !cluster.is_down(*who));
    Ok(List::from(all))
}

/// The machines that are down, in their order: where all start again, these do, one after the other.
pub fn machines_down<C: Shows>(alloc: Global, cluster: &C) -> Result<List<Actor>, OutOfMemory>
    requires { HasDiskNumbers (C.seen cluster.now) }
    ensures turn { IfOk result (λ down. AreInTurn (IsDown (C.seen cluster.now)) down) }
    ensures few { IfOk result (λ down. length down ≤ machines_of (C.seen cluster.now)) }
{
    let mut all = machines(alloc, cluster)?;
    all.retain(|who| cluster.is_down(*who));
    Ok(List::from(all))
}

/// The number of a machine's disk: replicas have the first ones, and members those behind them; `None` exactly where it has none.
pub fn disk_of<C: Shows>(cluster: &C, who: Actor) -> Option<u32>
    requires there { IsThere (C.seen cluster.now) who }
    requires disks { HasDiskNumbers (C.seen cluster.now) }
    ensures { result ≡ disk_of who }
{
    match who {
        Actor::Replica(n) => Some(n),
        Actor::Member(n) => Some(REPLICAS + n),
        Actor::Node(_) | Actor::Server(_) => None,
    }
}
