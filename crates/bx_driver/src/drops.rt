//! Packets that are dropped.

ghost use Rattle.std.specs.Prelude.{◌≡◌, ℕ, List};
ghost use Rattle.bx_post.specs.Posts.{passing_from};
ghost use Rattle.bx_driver.specs.Drops.{GoesOn, dropped, dropped_by, to_down};

use crate::lane::Lane;
use bx_base::Actor;
use bx_cluster::Cluster;
use bx_post::Passes;
use bx_world_events::Shows;

/// The packets on a lane.
#[derive(Clone, Copy)]
struct OnLane<'a> {
    lane: &'a Lane,
}

impl Passes for OnLane<'_> {
    ghost use Rattle.bx_driver.specs.Lanes.{is_on};

    ghost passes = { λ on. is_on on.lane.now };

    fn passes(&self, from: Actor, to: Actor, kind: u8) -> bool {
        *self.lane == Lane { from, to, kind }
    }
}

/// Makes each pending packet of a lane not pending. It takes no memory.
pub fn drop_pending<C: Cluster>(cluster: &mut C, lane: &Lane)
    ensures shows { C.seen cluster.new ≡ record (C.seen cluster.old) { post = dropped lane.now (C.seen cluster.old).post } }
    ensures at { GoesOn (C.led cluster.old) (C.led cluster.new) }
    ensures room { (sizes : List ℕ) → C.room cluster.old sizes → C.room cluster.new sizes }
    ensures events { C.events cluster.new ≡ C.events cluster.old }
{
    let on = OnLane { lane };
    while let Some(number) = cluster.next(&on) {
        cluster.settle(number);
    }
}

/// The packets to machines that are down.
#[derive(Drop)]
struct Lost<'a, C> {
    cluster: &'a C,
}

impl<C: Shows> Passes for Lost<'_, C> {
    ghost use Rattle.bx_driver.specs.Drops.{to_down};

    ghost passes = { λ lost. to_down (C.seen lost.cluster.now).down };

    fn passes(&self, _from: Actor, to: Actor, _kind: u8) -> bool {
        self.cluster.is_down(to)
    }
}

/// Makes each pending packet to a machine that is down not pending. It takes no memory.
pub fn drop_lost<C: Cluster>(cluster: &mut C)
    ensures shows { C.seen cluster.new ≡ record (C.seen cluster.old) { post = dropped_by (to_down (C.seen cluster.old).down) (C.seen cluster.old).post } }
    ensures at { GoesOn (C.led cluster.old) (C.led cluster.new) }
    ensures room { (sizes : List ℕ) → C.room cluster.old sizes → C.room cluster.new sizes }
    ensures events { C.events cluster.new ≡ C.events cluster.old }
{
    while let Some(number) = next_lost(cluster) {
        cluster.settle(number);
    }
}

/// The least number of a pending packet to a machine that is down.
fn next_lost<C: Cluster>(cluster: &C) -> Option<u64>
    ensures { result ≡ passing_from (to_down (C.seen cluster.now).down) 1 (C.seen cluster.now).post }
{
    cluster.next(&Lost { cluster })
}
