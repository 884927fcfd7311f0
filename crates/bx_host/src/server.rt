//! The whole of a server.

ghost use Rattle.std.specs.Prelude.{◌≡◌, ◌⊎◌, ◌++◌, ◌+◌, ◌<◌, ◌≤◌, [], false, IfErr, IfOk, IsErrOf, OnOk};
ghost use Rattle.bx_base.specs.Faults.{Rose};
ghost use Rattle.bx_driver.specs.Machines.{HasDiskNumbers};
ghost use Rattle.bx_host.specs.Hearing.{KeepsLink};
ghost use Rattle.bx_host.specs.Serves.{Breaks, KeepsSink, Serves, done_text};
ghost use Rattle.bx_host.specs.Standing.{KeepsRack, most_events};
ghost use Rattle.bx_host.specs.declared.error.HostError.TheVariants.{Disk as DiskFault, Link as LinkFault, OutOfMemory as NoMemory, Write as OutFault};

use crate::error::HostError;
use crate::host::Host;
use bx_base::List;
use bx_cluster::Cluster;
use bx_disk::Rack;
use bx_outside::{Clock, Link, Sink, write_all};
use bx_world_events::Shows;
use std::alloc::Global;

/// Serves a cluster that was just opened, for so many turns, and answers how many replies were sent. A turn reads the clock; lock servers, members and the node
/// have their ticks; then it receives a datagram, if the node has a live session, and sends what is answered. Behind each event it does
/// what is due, until nothing is. It writes a line when the session is live for the first time, and one behind the last turn.
pub fn serve<C: Cluster, R: Rack, L: Link, K: Clock, S: Sink>(
    alloc: Global,
    cluster: C,
    rack: &mut R,
    link: &mut L,
    clock: &mut K,
    out: &mut S,
    turns: u32,
) -> Result<u64, HostError>
    requires node { 0 < (C.seen cluster).nodes }
    requires disks { HasDiskNumbers (C.seen cluster) }
    requires time { (C.seen cluster).greatest ≤ 4294967295999 }
    requires room { C.room cluster (R.state rack.old).sizes }
    requires few { C.events cluster + turns < most_events }
    ensures serves { IfOk result (λ count. Serves C.seen C.shown C.led R.Rack L.Link K.Clock S.Sink turns count cluster rack.old rack.new link.old link.new clock.old clock.new out.old out.new) }
    ensures breaks { IfErr result (λ error. Breaks C.seen C.shown C.led R.Rack L.Link K.Clock S.Sink error turns cluster rack.old rack.new link.old link.new) }
    ensures disk_cause { IsErrOf result DiskFault → Rose (R.faults rack.old) (R.faults rack.new) }
    ensures link_cause { IsErrOf result LinkFault → Rose (L.faults link.old) (L.faults link.new) }
    ensures out_cause { IsErrOf result OutFault → Rose (S.faults out.old) (S.faults out.new) }
    ensures rack { KeepsRack R.Rack rack.old rack.new }
    ensures link { KeepsLink L.Link link.old link.new }
    ensures out { KeepsSink S.Sink out.old out.new }
{
    let mut host = Host::begin_with(alloc, cluster);
    for _ in 0..turns {
        let now = clock.now();
        host.turn(alloc, rack, link, out, now)?;
    }
    tell_done(alloc, out, host.sent)?;
    Ok(host.sent)
}

/// Writes the line behind the last turn.
fn tell_done<S: Sink>(alloc: Global, out: &mut S, count: u64) -> Result<(), HostError>
    ensures written { S.tells out.old → OnOk result (S.written out.new ≡ S.written out.old ++ done_text count) }
    ensures why { IfErr result (λ error. (error ≡ OutFault) ⊎ (error ≡ NoMemory)) }
    ensures cause { IsErrOf result OutFault → Rose (S.faults out.old) (S.faults out.new) }
    ensures keeps { KeepsSink S.Sink out.old out.new }
{
    let Ok(text) = format!(in alloc; "done {count}\n") else {
        return Err(HostError::OutOfMemory);
    };
    write_all(out, text.as_bytes())?;
    Ok(())
}

impl<C: Cluster> Host<C> {
    /// A server before its first turn.
    fn begin_with(alloc: Global, cluster: C) -> Host<C>
        ensures { result ≡ record { cluster = cluster; first = (C.seen cluster).most.term; reading = (C.seen cluster).greatest; left = 0; answers = []; stopped = []; ready = false; sent = 0 } }
    {
        let first = cluster.state().term;
        let reading = cluster.clock().greatest();
        Host {
            cluster,
            first,
            reading,
            left: 0,
            answers: List::new(alloc),
            stopped: List::new(alloc),
            ready: false,
            sent: 0,
        }
    }
}
