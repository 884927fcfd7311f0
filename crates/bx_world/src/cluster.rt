//! The world as a cluster.

use crate::world::World;
use bx_cluster::model::Tree;
use bx_cluster::{Cluster, Event, EventError, Outcome};
use bx_disk::Rack;
use bx_facts::{Owners, Register, Store};
use bx_post::Passes;
use bx_views::Engine;
use bx_world_events::refusal;
use std::alloc::Global;

impl<G: Register, O: Owners, S: Store, E: Engine<Tree = Tree>> Cluster for World<G, O, S, E> {
    ghost use Rattle.bx_cluster.specs.Runs.{StepOf};
    ghost use Rattle.bx_world.specs.Laws as laws;
    ghost use Rattle.bx_world.specs.Room.{HasRoom};
    ghost use Rattle.bx_world.specs.Shown as shown_trees;
    ghost use Rattle.bx_world.specs.Trees as trees;

    ghost events = { λ world. world.events };

    ghost room = { λ world sizes. HasRoom G.Register O.Owners S.Store E.Engine world sizes };

    ghost steps = { λ world tree entry next. StepOf (E.step world.machines.nodes.engine) tree entry next };

    ghost at_once = { λ world bytes. E.at_once world.machines.nodes.engine bytes };

    ghost led = { λ world x tree parts. trees.LedFrom G.Register O.Owners S.Store E.Engine world x tree parts };

    ghost shown = { λ world sizes image tree parts. shown_trees.Shown G.Register O.Owners S.Store E.Engine world sizes image tree parts };

    fn step<R: Rack>(
        &mut self,
        alloc: Global,
        rack: &mut R,
        event: &Event,
    ) -> Result<Outcome, EventError> {
        if let Some(error) = refusal(self, event) {
            return Err(error);
        }
        self.act(alloc, rack, event)
    }

    fn events(&self) -> u64 {
        World::events(self)
    }

    fn pending(&self, after: u64) -> Option<u64> {
        World::pending(self, after)
    }

    fn next<P: Passes>(&self, gate: &P) -> Option<u64> {
        World::next(self, gate)
    }

    fn settle(&mut self, number: u64) {
        World::settle(self, number);
    }

    fn forget(&mut self) {
        World::forget(self);
    }

    ghost disks = { λ world sizes who disk room there is. laws.has_disks _ _ _ _ world sizes who disk room there is };

    ghost accounts = { λ world x tree parts led. trees.accounts _ _ _ _ world x tree parts led };

    ghost shows = { λ world x tree parts image led is. laws.all_shown _ _ _ _ world x tree parts led.led (record { allowed = G.allowed; legal = G.legal; places = G.places; registers_elsewhere = G.elsewhere; registers_lose = G.loses; lives = O.lives; apart = λ one past keeps. record { each = λ session other block hold other_hold has has_other ne is is_other. O.apart one past session other block hold other_hold keeps has has_other ne is is_other }; alone = O.alone; owners_grow = O.grows; owners_lose = O.loses; own_out = S.own_out; stores_grow = S.grows; stores_elsewhere = S.elsewhere; stores_lose = S.loses }) (record { reads_next = G.reads_next; settles = S.settles; settled_is = S.settled_is; labelled = S.labelled }) image is };

    ghost crashes = { λ world x y tree parts who disk led there down is sizes crash. record { led = laws.crashes _ _ _ _ (record { allowed = G.allowed; legal = G.legal; places = G.places; registers_elsewhere = G.elsewhere; registers_lose = G.loses; lives = O.lives; apart = λ one past keeps. record { each = λ session other block hold other_hold has has_other ne is is_other. O.apart one past session other block hold other_hold keeps has has_other ne is is_other }; alone = O.alone; owners_grow = O.grows; owners_lose = O.loses; own_out = S.own_out; stores_grow = S.grows; stores_elsewhere = S.elsewhere; stores_lose = S.loses }) (record { registers_survive = G.survives; stores_survive = S.survives; stores_replaced = S.replaced }) world x tree parts led.led y who disk there down is sizes crash; volume = led.volume; areas = led.areas } };

    ghost blanks = { λ world x tree parts who disk led allowed is. record { led = laws.blanks _ _ _ _ (record { allowed = G.allowed; legal = G.legal; places = G.places; registers_elsewhere = G.elsewhere; registers_lose = G.loses; lives = O.lives; apart = λ one past keeps. record { each = λ session other block hold other_hold has has_other ne is is_other. O.apart one past session other block hold other_hold keeps has has_other ne is is_other }; alone = O.alone; owners_grow = O.grows; owners_lose = O.loses; own_out = S.own_out; stores_grow = S.grows; stores_elsewhere = S.elsewhere; stores_lose = S.loses }) (record { registers_survive = G.survives; stores_survive = S.survives; stores_replaced = S.replaced }) world x tree parts led.led who disk allowed is; volume = led.volume; areas = led.areas } };
}
