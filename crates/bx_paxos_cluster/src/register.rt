//! The register as the layers above know it.

use crate::paxos::Paxos;
use bx_base::Actor;
use bx_disk::Rack;
use bx_facts::{FactError, Input, OpenError, Outbox, ProposeError, Register};
use bx_global::{Change, GlobalState};

impl Register for Paxos {
    ghost use Rattle.std.specs.Prelude.{◌≡◌, length};
    ghost use Rattle.bx_paxos_machines.specs.bx_paxos.specs.Reading.{ReadsState};
    ghost use Rattle.bx_paxos_machines.specs.bx_paxos_found.specs.Finding.{IsGreatestBoot};
    ghost use Rattle.bx_paxos_machines.specs.Beginning.{AreNew};
    ghost use Rattle.bx_paxos_machines.specs.Cluster.{is_busy as busy_in, knows as known_in, needs as needed_in};
    ghost use Rattle.bx_paxos_machines.specs.Keeps.{Keeps};
    ghost use Rattle.bx_paxos_cluster.specs.Laws.{allowed, begins_knows, elsewhere, legal, loses, needs_little, needs_none, needs_up, one_boot, places, reads_next, reads_one, reads_some, survives};

    ghost made = { λ g. g.made };

    ghost nodes = { λ g. g.nodes };

    ghost is_new = { λ g. (g.first ≡ g.made) × AreNew g.first g.machines };

    ghost knows = { λ g who. known_in g who };

    ghost is_busy = { λ g who. busy_in g who };

    ghost needs = { λ g disk. needed_in g disk };

    ghost keeps = { λ g x past. Keeps g x past };

    ghost reads_as = { λ made sizes image s. ReadsState made sizes image s };

    ghost boot_in = { λ made sizes image boot. IsGreatestBoot (length made.devices) sizes image boot };

    fn known(&self, who: Actor) -> &GlobalState {
        Paxos::known(self, who)
    }

    fn propose(
        &mut self,
        who: Actor,
        change: &Change,
        out: &mut Outbox,
    ) -> Result<(), ProposeError> {
        Paxos::propose(self, who, change, out)
    }

    fn take<R: Rack>(
        &mut self,
        rack: &mut R,
        at: Actor,
        input: &Input,
        out: &mut Outbox,
    ) -> Result<(), FactError> {
        Paxos::take(self, rack, at, input, out)
    }

    fn crash(&mut self, who: Actor) {
        Paxos::crash(self, who);
    }

    fn restart<R: Rack>(
        &mut self,
        rack: &mut R,
        who: Actor,
        boot: u64,
        out: &mut Outbox,
    ) -> Result<(), FactError> {
        Paxos::restart(self, rack, who, boot, out)
    }

    fn format<R: Rack>(&mut self, rack: &mut R) -> Result<(), FactError> {
        Paxos::format(self, rack)
    }

    fn open<R: Rack>(&mut self, rack: &mut R) -> Result<u64, OpenError> {
        Paxos::open(self, rack)
    }

    ghost begins_knows = { begins_knows };

    ghost places = { places };

    ghost legal = { legal };

    ghost allowed = { allowed };

    ghost reads_next = { reads_next };

    ghost reads_one = { reads_one };

    ghost one_boot = { one_boot };

    ghost reads_some = { reads_some };

    ghost elsewhere = { elsewhere };

    ghost survives = { survives };

    ghost loses = { loses };

    ghost needs_little = { needs_little };

    ghost needs_up = { needs_up };

    ghost needs_none = { needs_none };
}
