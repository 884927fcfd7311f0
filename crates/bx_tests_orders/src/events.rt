//! Which events are refused, and how that reads.

use crate::cluster::shift;
use crate::states::first_state;
use bx_base::Actor;
use bx_global::GlobalState;
use bx_post::{Packet, Post};
use bx_world_events::{ClockRule, Event, Shows, refusal};
use std::alloc::Global;

/// A cluster of one node and of a device that uses its member A alone. Member B and a lock server are down.
#[derive(Drop)]
struct Picture {
    clock: ClockRule,
    post: Post,
    state: GlobalState,
}

impl Picture {
    /// The clock stands at 1000, and no packet was sent.
    fn new(alloc: Global) -> Option<Picture> {
        let mut clock = ClockRule::new();
        clock.take(1000).ok()?;
        let state = first_state(alloc)?;
        Some(Picture {
            clock,
            post: Post::new(alloc),
            state: state.changed(alloc, &shift(1, 5)).ok()??,
        })
    }
}

impl Shows for Picture {
    ghost use Rattle.std.specs.Prelude.{◌||◌};
    ghost use Rattle.bx_base.specs.declared.names.Actor.TheVariants.{Member, Server};
    ghost use Rattle.bx_post.specs.Machines.{is_same};

    ghost seen = { λ picture. record {
      nodes = 1;
      devices = 1;
      post = picture.post;
      greatest = picture.clock;
      down = λ who. is_same who (Member 1) || is_same who (Server 1);
      waits = λ who. is_same who (Member 0);
      most = picture.state;
    } };

    fn nodes(&self) -> u32 {
        1
    }

    fn devices(&self) -> u32 {
        1
    }

    fn clock(&self) -> ClockRule {
        self.clock
    }

    fn packet(&self, number: u64) -> Option<&Packet> {
        self.post.packet(number)
    }

    fn is_down(&self, who: Actor) -> bool {
        who == Actor::Member(1) || who == Actor::Server(1)
    }

    fn waiting(&self, who: Actor) -> bool {
        who == Actor::Member(0)
    }

    fn state(&self) -> &GlobalState {
        &self.state
    }
}

/// Whether an event is refused, and its refusal reads so; where nothing is to be read it isn't.
fn reads(alloc: Global, picture: &Picture, event: &Event, text: &str) -> bool {
    match refusal(picture, event) {
        Some(error) => { matches!(format!(in alloc; "{error}"), Ok(said) if said.as_str() == text) }
        None => text.is_empty(),
    }
}

/// Whether of machines, clocks and packets the first cause is told.
fn first_is_told(alloc: Global) -> bool {
    let Some(picture) = Picture::new(alloc) else {
        return false;
    };
    let absent = Event::Tick {
        reading: 0,
        at: Actor::Node(1),
    };
    let back = Event::Deliver {
        reading: 499,
        number: 9,
    };
    let lost = Event::Deliver {
        reading: 500,
        number: 9,
    };
    reads(alloc, &picture, &absent, "no such machine")
        && reads(alloc, &picture, &back, "clock back by 1")
        && reads(alloc, &picture, &lost, "no such packet 9")
}

/// Whether of machines and their disks it is told what stands in the way.
fn others_are_told(alloc: Global) -> bool {
    let Some(picture) = Picture::new(alloc) else {
        return false;
    };
    let again = Event::Restart {
        reading: 1000,
        at: Actor::Node(0),
    };
    let twice = Event::Crash {
        at: Actor::Member(1),
    };
    let idle = Event::Sync {
        at: Actor::Replica(0),
    };
    let server = Event::Blank {
        at: Actor::Server(1),
    };
    reads(alloc, &picture, &again, "up")
        && reads(alloc, &picture, &twice, "down")
        && reads(alloc, &picture, &idle, "nothing to sync")
        && reads(alloc, &picture, &server, "still needed")
}

/// Whether what may happen isn't refused.
fn none_is_told(alloc: Global) -> bool {
    let Some(picture) = Picture::new(alloc) else {
        return false;
    };
    let sync = Event::Sync {
        at: Actor::Member(0),
    };
    let blank = Event::Blank {
        at: Actor::Member(1),
    };
    let tick = Event::Tick {
        reading: 500,
        at: Actor::Node(0),
    };
    reads(alloc, &picture, &sync, "")
        && reads(alloc, &picture, &blank, "")
        && reads(alloc, &picture, &tick, "")
}

#[test]
fn the_first_cause_is_told(rt: HostRuntime) {
    assert!(rt; first_is_told(rt.alloc()));
    assert!(rt; others_are_told(rt.alloc()));
}

#[test]
fn what_may_happen_is_not_refused(rt: HostRuntime) {
    assert!(rt; none_is_told(rt.alloc()));
}
