//! The causes for which an event may be refused, each by itself.

ghost use Rattle.std.specs.Prelude.{◌≡◌};
ghost use Rattle.bx_global.specs.declared.state.GlobalState.{GlobalState};
ghost use Rattle.bx_world_events.specs.Events.{needs_up};
ghost use Rattle.bx_world_events.specs.Refusals.{clock_back, down, is_spare, is_there, no_machine, no_packet, nothing_to_sync, receiver, still_needed, up};

use crate::event::{Event, EventError};
use crate::shows::Shows;
use bx_base::Actor;
use bx_global::GlobalState;
use bx_lease::BackBy;

/// How many replicas there are.
pub const REPLICAS: u32 = 3;

/// How many lock servers there are.
pub const SERVERS: u32 = 2;

/// The mode of a device that uses member A alone.
const ONLY_A: u32 = 1;

/// The mode of a device that uses member B alone.
const ONLY_B: u32 = 2;

/// Whether the cluster has a machine. It takes no memory.
pub fn is_there<S: Shows>(cluster: &S, who: Actor) -> bool
    ensures { result ≡ is_there (S.seen cluster.now) who }
{
    match who {
        Actor::Node(n) => n < cluster.nodes(),
        Actor::Replica(n) => n < REPLICAS,
        Actor::Server(n) => n < SERVERS,
        Actor::Member(n) => n / 2 < cluster.devices(),
    }
}

/// It names a machine that isn't there.
pub(crate) fn no_machine<S: Shows>(cluster: &S, event: &Event) -> Option<EventError>
    ensures { result ≡ no_machine (S.seen cluster.now) event.now }
{
    let who = event.machine()?;
    (!is_there(cluster, who)).then_some(EventError::NoSuchMachine)
}

/// Its reading lies too far behind the greatest one.
pub(crate) fn clock_back<S: Shows>(cluster: &S, event: &Event) -> Option<EventError>
    ensures { result ≡ clock_back (S.seen cluster.now) event.now }
{
    let reading = event.reading()?;
    match cluster.clock().take(reading) {
        Ok(()) => None,
        Err(BackBy(by)) => Some(EventError::ClockBack(by)),
    }
}

/// It names a packet that isn't there.
pub(crate) fn no_packet<S: Shows>(cluster: &S, event: &Event) -> Option<EventError>
    ensures { result ≡ no_packet (S.seen cluster.now) event.now }
{
    let number = event.number()?;
    match cluster.packet(number) {
        Some(_) => None,
        None => Some(EventError::NoSuchPacket(number)),
    }
}

/// The machine that a packet goes to; `None` exactly where no packet has this number.
fn receiver<S: Shows>(cluster: &S, number: u64) -> Option<Actor>
    ensures { result ≡ receiver (S.seen cluster.now) number }
{
    match cluster.packet(number) {
        Some(packet) => Some(packet.to),
        None => None,
    }
}

/// The machine that has to be up for it; `None` exactly where none has to.
fn listener<S: Shows>(cluster: &S, event: &Event) -> Option<Actor>
    ensures { result ≡ needs_up (receiver (S.seen cluster.now)) event.now }
{
    match event {
        Event::Call { node, .. } => Some(Actor::Node(*node)),
        Event::Tick { at, .. } | Event::Sync { at } | Event::Crash { at } => Some(*at),
        Event::Deliver { number, .. } => receiver(cluster, *number),
        Event::Restart { .. } | Event::Blank { .. } => None,
    }
}

/// The machine has to be down for it, and is up.
pub(crate) fn is_up<S: Shows>(cluster: &S, event: &Event) -> Option<EventError>
    ensures { result ≡ up (S.seen cluster.now) event.now }
{
    let who = event.sleeper()?;
    (!cluster.is_down(who)).then_some(EventError::Up)
}

/// The machine has to be up for it, and is down.
pub(crate) fn is_down<S: Shows>(cluster: &S, event: &Event) -> Option<EventError>
    ensures { result ≡ down (S.seen cluster.now) event.now }
{
    let who = listener(cluster, event)?;
    cluster.is_down(who).then_some(EventError::Down)
}

/// It is a sync of a machine whose disk has no write that waits.
pub(crate) fn nothing_to_sync<S: Shows>(cluster: &S, event: &Event) -> Option<EventError>
    ensures { result ≡ nothing_to_sync (S.seen cluster.now) event.now }
{
    match event {
        Event::Sync { at } => (!cluster.waiting(*at)).then_some(EventError::NothingToSync),
        _ => None,
    }
}

/// It replaces a disk that is needed.
pub(crate) fn still_needed<S: Shows>(cluster: &S, event: &Event) -> Option<EventError>
    ensures { result ≡ still_needed (S.seen cluster.now) event.now }
{
    match event {
        Event::Blank { at } => {
            (!is_spare(cluster.state(), *at)).then_some(EventError::StillNeeded)
        }
        _ => None,
    }
}

/// Whether it is a member whose device uses the other one alone.
fn is_spare(state: &GlobalState, who: Actor) -> bool
    ensures { result ≡ is_spare state.now who }
{
    match who {
        Actor::Member(n) => {
            let other = if n % 2 == 0 { ONLY_B } else { ONLY_A };
            match state.devices.get((n / 2) as usize) {
                Some(row) => row.mode == other,
                None => false,
            }
        }
        Actor::Node(_) | Actor::Replica(_) | Actor::Server(_) => false,
    }
}
