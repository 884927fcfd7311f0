//! One turn.

ghost use Rattle.std.specs.Prelude.{◌≡◌, ◌⊎◌, ◌||◌, ◌++◌, ◌+◌, ◌<◌, ◌≤◌, ℕ, List, [], IfErr, IsErrOf, OnErr, OnOk};
ghost use Rattle.bx_base.specs.Faults.{Rose};
ghost use Rattle.bx_disk.specs.Disks.{Disks};
ghost use Rattle.bx_history.specs.Parts.{Part};
ghost use Rattle.bx_model.specs.declared.tree.Tree.{Tree};
ghost use Rattle.bx_host.specs.Hearing.{KeepsLink};
ghost use Rattle.bx_host.specs.Sending.{FailsLink, Sends, counted};
ghost use Rattle.bx_host.specs.Serves.{BreaksTurn, DoesTurn, KeepsSink, ready_text};
ghost use Rattle.bx_host.specs.Standing.{CanGo, KeepsRack, most_events};
ghost use Rattle.bx_host.specs.Steps.{owed};
ghost use Rattle.bx_host.specs.Turns.{is_live, reading_for, tidied};
ghost use Rattle.bx_host.specs.declared.error.HostError.TheVariants.{Disk as DiskFault, Link as LinkFault, OutOfMemory as NoMemory, Write as OutFault};

use crate::answers::send_all;
use crate::error::HostError;
use crate::host::Host;
use bx_base::List;
use bx_cluster::Cluster;
use bx_disk::Rack;
use bx_driver::drop_lost;
use bx_outside::{Link, Sink, write_all};
use std::alloc::Global;

/// The greatest reading, in milliseconds: seconds have 32 bits.
const LAST_READING: u64 = 4294967295999;

/// How many events a turn does at most.
const EVENTS: u32 = 1000000;

impl<C: Cluster> Host<C> {
    /// Does a turn, for which the clock gave this.
    pub(crate) fn turn<R: Rack, L: Link, S: Sink>(
        &mut self,
        alloc: Global,
        rack: &mut R,
        link: &mut L,
        out: &mut S,
        now: u64,
    ) -> Result<(), HostError>
        requires goes { CanGo C.seen C.room C.led R.Rack self.old rack.old }
        requires few { C.events self.old.cluster + 1 < most_events }
        ensures does { OnOk result (DoesTurn C.seen C.room C.led R.Rack L.Link S.Sink now self.old rack.old self.new rack.new link.old link.new out.old out.new) }
        ensures breaks { IfErr result (λ error. BreaksTurn C.seen C.room C.led R.Rack L.Link S.Sink error self.old rack.old self.new rack.new link.old link.new) }
        ensures goes { OnOk result (CanGo C.seen C.room C.led R.Rack self.new rack.new) }
        ensures counted { OnOk result (C.events self.new.cluster ≤ C.events self.old.cluster + 1) }
        ensures rack { KeepsRack R.Rack rack.old rack.new }
        ensures link { KeepsLink L.Link link.old link.new }
        ensures out { KeepsSink S.Sink out.old out.new }
        ensures disk_cause { IsErrOf result DiskFault → Rose (R.faults rack.old) (R.faults rack.new) }
        ensures link_cause { IsErrOf result LinkFault → Rose (L.faults link.old) (L.faults link.new) }
        ensures out_cause { IsErrOf result OutFault → Rose (S.faults out.old) (S.faults out.new) }
    {
        self.begin(alloc, now);
        self.tick_all(alloc, rack)?;
        self.tell_ready(out)?;
        self.hear(alloc, rack, link)?;
        self.answer(link)?;
        self.end();
        Ok(())
    }

    /// Begins a turn, for which the clock gave this.
    fn begin(&mut self, alloc: Global, now: u64)
        ensures { self.new ≡ record self.old { reading = reading_for self.old.reading now; left = 1000000; answers = [] } }
    {
        self.reading = self.reading.max(now).min(LAST_READING);
        self.left = EVENTS;
        self.answers = List::new(alloc);
    }

    /// Writes a line where the node's session is live for the first time.
    fn tell_ready<S: Sink>(&mut self, out: &mut S) -> Result<(), HostError>
        ensures ready { OnOk result (self.new ≡ record self.old { ready = self.old.ready || is_live self.old.first (C.seen self.old.cluster).most }) }
        ensures written { S.tells out.old → OnOk result (S.written out.new ≡ S.written out.old ++ ready_text self.old.ready self.new.ready) }
        ensures same { OnErr result (self.new ≡ self.old) }
        ensures why { IfErr result (λ error. error ≡ OutFault) }
        ensures cause { OnErr result (Rose (S.faults out.old) (S.faults out.new)) }
        ensures keeps { KeepsSink S.Sink out.old out.new }
    {
        if self.ready || !self.is_live() {
            return Ok(());
        }
        write_all(out, b"ready\n")?;
        self.ready = true;
        Ok(())
    }

    /// Sends what the turn answers.
    fn answer<L: Link>(&mut self, link: &mut L) -> Result<(), HostError>
        ensures sends { Sends L.Link link.old link.new (owed self.old.answers) result }
        ensures count { OnOk result (self.new.sent ≡ counted self.old.sent (owed self.old.answers)) }
        ensures same { self.new ≡ record self.old { sent = self.new.sent } }
        ensures link { FailsLink L.Link link.old link.new result }
    {
        self.sent = send_all(link, self.answers.items(), self.sent)?;
        Ok(())
    }

    /// Ends a turn: packets that no machine is up to take are dropped, and those that came are forgotten.
    fn end(&mut self)
        ensures shows { C.seen self.new.cluster ≡ tidied (C.seen self.old.cluster) }
        ensures at { (x : Disks) (tree : Tree) (parts : List Part) → C.led self.old.cluster x tree parts → C.led self.new.cluster x tree parts }
        ensures room { (sizes : List ℕ) → C.room self.old.cluster sizes → C.room self.new.cluster sizes }
        ensures events { C.events self.new.cluster ≡ C.events self.old.cluster }
        ensures same { self.new ≡ record self.old { cluster = self.new.cluster } }
    {
        drop_lost(&mut self.cluster);
        self.cluster.forget();
    }
}
