//! Events of the world, whatever each is.

ghost use Rattle.std.specs.Prelude.{◌≡◌, ◌<◌, ◌∷◌, ℕ, List, None, IfErr, IfOk, IsSome, OnOk};
ghost use Rattle.bx_base.specs.Faults.{Rose};
ghost use Rattle.bx_calls.specs.Calls.{LeavesOnly};
ghost use Rattle.bx_cluster.specs.Steps.{Counted, IsMoment, Shown, part_at};
ghost use Rattle.bx_disk.specs.Counts.{NoneFalls};
ghost use Rattle.bx_history.specs.Parts.{Part};
ghost use Rattle.bx_world.specs.Led.{Led};
ghost use Rattle.bx_world.specs.Room.{HasRoom};
ghost use Rattle.bx_world.specs.Shown as shown;
ghost use Rattle.bx_world.specs.World.{seen};
ghost use Rattle.bx_world_events.specs.Refusals.{refusal};
ghost use Rattle.bx_world_events.specs.declared.event.EventError.TheVariants.{OutOfMemory as NoMemory};

use crate::tells::nothing;
use crate::world::World;
use bx_cluster::{Event, EventError, Outcome};
use bx_disk::Rack;
use bx_facts::{Owners, Register, Store};
use bx_views::Engine;
use std::alloc::Global;

impl<G: Register, O: Owners, S: Store, E: Engine> World<G, O, S, E> {
    /// Does an event that isn't refused. Whoever has the disks replaces that of a machine by a blank one, or lets it crash: nothing of the world changes by that.
    pub(crate) fn act<R: Rack>(
        &mut self,
        alloc: Global,
        rack: &mut R,
        event: &Event,
    ) -> Result<Outcome, EventError>
        requires allowed { refusal (seen S.Store self.old) event.now ≡ None }
        requires moment { IsMoment event.now }
        requires few { self.old.events < 4611686018427387904 }
        requires room { HasRoom G.Register O.Owners S.Store E.Engine self.old (R.state rack.old).sizes }
        ensures shows { IfOk result (λ outcome. Shown event.now outcome.stopped (seen S.Store self.old) (seen S.Store self.new)) }
        ensures led { (first : E.Tree) (parts : List Part) → R.tells rack.old → Led G.Register O.Owners S.Store E.Engine self.old (R.state rack.old) first parts → IfOk result (λ outcome. Led G.Register O.Owners S.Store E.Engine self.new (R.state rack.new) first (part_at event.now outcome ∷ parts)) }
        ensures any_moment { (first : E.Tree) (parts : List Part) → R.tells rack.old → Led G.Register O.Owners S.Store E.Engine self.old (R.state rack.old) first parts
            → LeavesOnly (R.moment rack.old) (R.moment rack.new) (R.left_since rack.old) (R.left_since rack.new) (λ image. shown.Shown G.Register O.Owners S.Store E.Engine self.old (R.state rack.old).sizes image first parts) }
        ensures room { (sizes : List ℕ) → HasRoom G.Register O.Owners S.Store E.Engine self.old sizes → OnOk result (HasRoom G.Register O.Owners S.Store E.Engine self.new sizes) }
        ensures made { S.made self.new.machines.nodes.store ≡ S.made self.old.machines.nodes.store }
        ensures stopped { IfOk result (λ outcome. IsSome outcome.stopped → Rose (R.faults rack.old) (R.faults rack.new)) }
        ensures error { IfErr result (λ error. error ≡ NoMemory) }
        ensures counted { OnOk result (Counted event.now self.old.events self.new.events) }
        ensures later { NoneFalls (R.faults rack.old) (R.faults rack.new) (R.faults_of rack.old) (R.faults_of rack.new) }
        ensures sizes { (R.state rack.new).sizes ≡ (R.state rack.old).sizes }
        ensures keeps_telling { R.tells rack.old → R.tells rack.new }
    {
        match *event {
            Event::Call {
                reading,
                node,
                client,
                bytes,
            } => self.call(alloc, reading, node, client, bytes),
            Event::Tick { reading, at } => self.tick(alloc, rack, at, reading),
            Event::Deliver { reading, number } => self.deliver(alloc, rack, number, reading),
            Event::Sync { at } => self.sync(alloc, rack, at),
            Event::Crash { at } => {
                self.crash(at);
                Ok(nothing(alloc))
            }
            Event::Restart { reading, at } => self.restart(alloc, rack, at, reading),
            Event::Blank { .. } => Ok(nothing(alloc)),
        }
    }
}
