//! What a run does next.

ghost use Rattle.std.specs.Prelude.{◌≡◌, ◌<◌, ◌&&◌, ℕ, IfSome, None, Option, Some, not};
ghost use Rattle.bx_base.specs.declared.names.Actor.TheVariants.{Replica};
ghost use Rattle.bx_facts.specs.Machines.{disk_of};
ghost use Rattle.bx_world_events.specs.Refusals.{clock_back, refusal};
ghost use Rattle.bx_world_events.specs.declared.event.Event.{Event};
ghost use Rattle.bx_driver.specs.Machines.{HasDiskNumbers};
ghost use Rattle.bx_driver.specs.Runs.{IsDue, IsLowest, NoneMaySync};

use crate::held::Held;
use crate::lane::Lane;
use bx_base::Actor;
use bx_cluster::Cluster;
use bx_post::Passes;
use bx_world_events::{Event, REPLICAS, Shows};

/// The packets that may arrive in a run: those to machines that are up, on lanes that aren't held.
#[derive(Drop)]
struct Arrivals<'a, C> {
    cluster: &'a C,
    held: &'a Held,
}

impl<C: Shows> Passes for Arrivals<'_, C> {
    ghost use Rattle.bx_driver.specs.Runs.{passes_now};

    ghost passes = { λ arrivals. passes_now (C.seen arrivals.cluster.now) arrivals.held.now };

    fn passes(&self, from: Actor, to: Actor, kind: u8) -> bool {
        let lane = Lane { from, to, kind };
        !self.cluster.is_down(to) && !self.held.has(&lane)
    }
}

/// The machine with a disk: replicas have the first ones, and members those behind them.
fn machine_with(disk: u32) -> Actor
    ensures disk { disk_of result ≡ Some disk }
    ensures replicas { (n : ℕ) → result ≡ Replica n → n < 3 }
{
    if disk < REPLICAS {
        Actor::Replica(disk)
    } else {
        Actor::Member(disk - REPLICAS)
    }
}

/// Whether a machine is up and has a write that waits.
fn may_sync<C: Shows>(cluster: &C, at: Actor) -> bool
    ensures { result ≡ not ((C.seen cluster.now).down at) && (C.seen cluster.now).waits at }
{
    !cluster.is_down(at) && cluster.waiting(at)
}

/// The machine with the lowest disk that has a write waiting, of those that are up; `None` exactly where there is none.
fn lowest_waiting<C: Shows>(cluster: &C) -> Option<Actor>
    requires { HasDiskNumbers (C.seen cluster.now) }
    ensures some { IfSome result (λ at. IsLowest (C.seen cluster.now) at) }
    ensures none { result ≡ None → NoneMaySync (C.seen cluster.now) }
{
    for disk in 0..REPLICAS + 2 * cluster.devices() {
        let at = machine_with(disk);
        if may_sync(cluster, at) {
            return Some(at);
        }
    }
    None
}

/// What a run does next: the least packet that may arrive does; where there is none, the lowest disk that waits finishes a sync; `None` exactly where there is none
/// either. What is due is refused for nothing but its reading. It takes no memory.
pub fn due<C: Cluster>(cluster: &C, held: &Held, reading: u64) -> Option<Event<'static>>
    requires { HasDiskNumbers (C.seen cluster.now) }
    ensures due { IsDue (C.seen cluster.now) held.now reading result }
    ensures only { (other : Option Event) → IsDue (C.seen cluster.now) held.now reading other → other ≡ result }
    ensures allowed { IfSome result (λ event. refusal (C.seen cluster.now) event ≡ clock_back (C.seen cluster.now) event) }
{
    let arrivals = Arrivals { cluster, held };
    if let Some(number) = cluster.next(&arrivals) {
        return Some(Event::Deliver { reading, number });
    }
    let at = lowest_waiting(cluster)?;
    Some(Event::Sync { at })
}
