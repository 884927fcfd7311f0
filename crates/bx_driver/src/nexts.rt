//! The next packet between two machines.

ghost use Rattle.std.specs.Prelude.{◌≡◌, ◌-◌, ◌^◌, ℕ, Some, length, min};
ghost use Rattle.std.specs.Option.{option_or};
ghost use Rattle.bx_world_events.specs.Refusals.{clock_back, refusal};
ghost use Rattle.bx_world_events.specs.declared.event.EventError.TheVariants.{NoSuchPacket};
ghost use Rattle.bx_world_events.specs.declared.event.Event.TheVariants.{Deliver};
ghost use Rattle.bx_driver.specs.Nexts.{IsNextNumber, NoneBetween, number_above};

use bx_base::Actor;
use bx_cluster::Cluster;
use bx_post::Passes;
use bx_world_events::{Event, Shows};

/// The packets from one machine to another.
#[derive(Clone, Copy)]
struct Between {
    from: Actor,
    to: Actor,
}

impl Passes for Between {
    ghost use Rattle.bx_driver.specs.Nexts.{is_between};

    ghost passes = { λ between. is_between between.from between.to };

    fn passes(&self, from: Actor, to: Actor, _kind: u8) -> bool {
        self.from == from && self.to == to
    }
}

/// How many packets there are; the greatest number where there are more.
fn count_of<C: Shows>(cluster: &C) -> u64
    ensures { result ≡ min (length (C.seen cluster.now).post) (2 ^ 64 - 1) }
{
    let mut low = 0;
    let mut high = u64::MAX;
    while low < high {
        let middle = low + (high - low) / 2;
        if cluster.packet(middle + 1).is_some() {
            low = middle + 1;
        } else {
            high = middle;
        }
    }
    low
}

/// The number above those of all packets. Where that is no number of 64 bits it is 0, which no packet has either.
fn number_above<C: Shows>(cluster: &C) -> u64
    ensures { result ≡ number_above (C.seen cluster.now).post }
{
    count_of(cluster).checked_add(1).unwrap_or(0)
}

/// The number of the next packet from one machine to another: the least that is pending; where none is, the number above those of all.
fn next_number<C: Cluster>(cluster: &C, from: Actor, to: Actor) -> u64
    ensures { IsNextNumber (C.seen cluster.now).post from to result }
{
    match cluster.next(&Between { from, to }) {
        Some(number) => number,
        None => number_above(cluster),
    }
}

/// The delivery of the least pending packet from one machine to another. Where none is pending, it is that of the number above those of all packets, which is
/// refused. It takes no memory.
pub fn delivery_between<C: Cluster>(
    cluster: &C,
    from: Actor,
    to: Actor,
    reading: u64,
) -> Event<'static>
    ensures next { (number : ℕ) × (result ≡ Deliver reading number) × IsNextNumber (C.seen cluster.now).post from to number }
    ensures only { (number : ℕ) → IsNextNumber (C.seen cluster.now).post from to number → result ≡ Deliver reading number }
    ensures refused { NoneBetween (C.seen cluster.now).post from to → refusal (C.seen cluster.now) result ≡ option_or (clock_back (C.seen cluster.now) result) (Some (NoSuchPacket (number_above (C.seen cluster.now).post))) }
{
    Event::Deliver {
        reading,
        number: next_number(cluster, from, to),
    }
}
