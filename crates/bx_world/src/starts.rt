//! Machines of the world that start again.

ghost use Rattle.std.specs.Prelude.{◌≡◌, ◌+◌, ◌<◌, ◌≤◌, ◌∷◌, ℕ, false, List, IfErr, IfOk, IsSome, OnOk};
ghost use Rattle.bx_base.specs.Faults.{Rose};
ghost use Rattle.bx_calls.specs.Calls.{LeavesOnly};
ghost use Rattle.bx_cluster.specs.Steps.{Shown, part_at};
ghost use Rattle.bx_disk.specs.Counts.{NoneFalls};
ghost use Rattle.bx_history.specs.Parts.{Part};
ghost use Rattle.bx_world.specs.Led.{Led};
ghost use Rattle.bx_world.specs.Shown as shown;
ghost use Rattle.bx_world.specs.Starting.{MayStartNext, Restarts};
ghost use Rattle.bx_world.specs.World.{IsReady, seen};
ghost use Rattle.bx_world_events.specs.declared.event.Event.TheVariants.{Restart};
ghost use Rattle.bx_world_events.specs.declared.event.EventError.TheVariants.{OutOfMemory as NoMemory};
ghost use Rattle.bx_world_machines.specs.Machines.{is_up};
ghost use Rattle.bx_world_machines.specs.Standing.{HasMachine};

use crate::tells::{clear_at, nothing, stopped};
use crate::world::World;
use bx_base::Actor;
use bx_cluster::{EventError, Outcome};
use bx_disk::Rack;
use bx_facts::{FactError, Outbox, Owners, Register, Store};
use bx_views::Engine;
use std::alloc::Global;

impl<G: Register, O: Owners, S: Store, E: Engine> World<G, O, S, E> {
    /// A machine that is down starts again, in the boot after all that there were. A node has no calls then. At a disk fault it stays down.
    pub fn restart<R: Rack>(
        &mut self,
        alloc: Global,
        rack: &mut R,
        who: Actor,
        reading: u64,
    ) -> Result<Outcome, EventError>
        requires there { HasMachine self.old.machines.count self.old.machines.devices who }
        requires down { is_up self.old.machines.up.items who ≡ false }
        requires ready { IsReady G.Register O.Owners S.Store E.Engine self.old (R.state rack.old).sizes }
        requires steady { self.old.machines.clock ≤ reading + 500 }
        requires few { self.old.events < 4611686018427387904 }
        requires boots { self.old.machines.boots ≤ self.old.events }
        ensures shows { IfOk result (λ outcome. Shown (Restart reading who) outcome.stopped (seen S.Store self.old) (seen S.Store self.new)) }
        ensures restarts { IfOk result (Restarts G.Register O.Owners S.Store E.Engine who self.old self.new (R.tells rack.old) (R.state rack.old) (R.state rack.new)) }
        ensures led { (first : E.Tree) (parts : List Part) → R.tells rack.old → MayStartNext G.Register O.Owners S.Store E.Engine self.old who → Led G.Register O.Owners S.Store E.Engine self.old (R.state rack.old) first parts → IfOk result (λ outcome. Led G.Register O.Owners S.Store E.Engine self.new (R.state rack.new) first (part_at (Restart reading who) outcome ∷ parts)) }
        ensures any_moment { (first : E.Tree) (parts : List Part) → R.tells rack.old → Led G.Register O.Owners S.Store E.Engine self.old (R.state rack.old) first parts
            → LeavesOnly (R.moment rack.old) (R.moment rack.new) (R.left_since rack.old) (R.left_since rack.new) (λ image. shown.Shown G.Register O.Owners S.Store E.Engine self.old (R.state rack.old).sizes image first parts) }
        ensures ready { (sizes : List ℕ) → S.is_separate → IsReady G.Register O.Owners S.Store E.Engine self.old sizes → OnOk result (IsReady G.Register O.Owners S.Store E.Engine self.new sizes) }
        ensures boots { self.new.machines.boots ≡ self.old.machines.boots + 1 }
        ensures made { S.made self.new.machines.nodes.store ≡ S.made self.old.machines.nodes.store }
        ensures stopped { IfOk result (λ outcome. IsSome outcome.stopped → Rose (R.faults rack.old) (R.faults rack.new)) }
        ensures error { IfErr result (λ error. error ≡ NoMemory) }
        ensures events { self.new.events ≡ self.old.events + 1 }
        ensures later { NoneFalls (R.faults rack.old) (R.faults rack.new) (R.faults_of rack.old) (R.faults_of rack.new) }
        ensures sizes { (R.state rack.new).sizes ≡ (R.state rack.old).sizes }
        ensures keeps_telling { R.tells rack.old → R.tells rack.new }
    {
        self.events += 1;
        let mut out = Outbox::new(alloc);
        match self.machines.restart(rack, who, reading, &mut out) {
            Ok(()) => {
                self.post.send(alloc, out)?;
                Ok(nothing(alloc))
            }
            Err(FactError::Disk) => {
                clear_at(&mut self.desks, who);
                Ok(stopped(alloc, who))
            }
            Err(FactError::OutOfMemory) => Err(EventError::OutOfMemory),
        }
    }
}
