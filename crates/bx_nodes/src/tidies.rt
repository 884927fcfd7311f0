//! Tidies.

ghost use Rattle.std.specs.Prelude.{◌≡◌, ◌≢◌, ℕ, ◌<◌, ◌++◌, [], false, true, length, List, IfSome, IsSome, None, OnOk, Some, slice_get};
ghost use Rattle.bx_base.specs.declared.names.Actor.TheVariants.{Node};
ghost use Rattle.bx_disk.specs.Disks.{Disks};
ghost use Rattle.bx_facts.specs.Chains.{LivesIn, last};
ghost use Rattle.bx_node_steps.specs.Calls.{AnswersCalls, AreApart};
ghost use Rattle.bx_node_steps.specs.Seen.{seen};
ghost use Rattle.bx_node_steps.specs.declared.machine.Machine.{Machine};
ghost use Rattle.bx_node_tries.specs.declared.round.Said.{Said};
ghost use Rattle.bx_node_steps.specs.Tidying.{Ticks, TidyGoes, is_tidying};
ghost use Rattle.bx_nodes.specs.Cleaning.{CleansArea, IsHeldUp};
ghost use Rattle.bx_nodes.specs.Standing.{Asking, BeReady, IsUnder, OfBoth, OfNode, Ready, Stand};
ghost use Rattle.bx_nodes.specs.Turns.{OnlyMachine, OnlyStore, Turned, Waits};
ghost use Rattle.bx_post.specs.declared.packets.Letter.{Letter};
ghost use Rattle.bx_world_standing.specs.Parts.{Clocks};
ghost use Rattle.bx_world_standing.specs.Standing.{Course};

use crate::nodes::Nodes;
use crate::turns::Lease;
use bx_base::OutOfMemory;
use bx_facts::{Outbox, Owners, Register, Store};
use bx_node_steps::tidying;
use bx_views::{Attempt, Engine};

impl<G: Register, O: Owners, S: Store, E: Engine> Nodes<G, O, S, E> {
    /// The clock of a node ticks: where no call waits, a tidy that rests does so no more, and where there is none one begins.
    pub fn tick(&mut self, node: u32)
        requires there { node < length self.old.machines.items }
        ensures ticks { OfBoth self.old self.new node Ticks }
        ensures stands { (x : Disks) (letters : List Letter) (clocks : Clocks) (c : Course) (tree : E.Tree)
            → Stand G.Register O.Owners S.Store E.Engine self.old x letters clocks c tree → Stand G.Register O.Owners S.Store E.Engine self.new x letters clocks c tree }
        ensures ready { BeReady S.Store E.Engine self.old node → BeReady S.Store E.Engine self.new node }
        ensures seen { seen self.new.machines.items ≡ seen self.old.machines.items }
        ensures parts { (self.new.register ≡ self.old.register) × (self.new.owners ≡ self.old.owners) × (self.new.store ≡ self.old.store) × (self.new.engine ≡ self.old.engine) }
        ensures others { OnlyMachine node self.old.machines.items self.new.machines.items }
        ensures count { length self.new.machines.items ≡ length self.old.machines.items }
    {
        self.machines[node as usize].tick();
    }

    /// Whether a tidy of a node is under way.
    pub fn is_tidying(&self, node: u32) -> bool
        requires there { node < length self.now.machines.items }
        ensures { OfNode self.now node (λ machine. result ≡ is_tidying machine) }
    {
        self.machines[node as usize].is_tidying()
    }

    /// Goes on with the tidy that is under way, at a moment in milliseconds, where no call waits and the log rests. Where the node is asked for a block the tidy rests, until a
    /// tick at which no call waits; else, where no write is out, what it wants is asked for, or its record begins, or it ends, as its area is clean.
    pub(crate) fn tidy(
        &mut self,
        node: u32,
        lease: Lease,
        moment: u64,
        out: &mut Outbox,
    ) -> Result<(), OutOfMemory>
        requires there { (node < length self.old.machines.items) × (node < G.nodes self.old.register) }
        requires ready { Ready S.Store E.Engine self.old node }
        requires sessions { IsSome (O.own self.old.owners node) × IsSome (S.own self.old.store node) }
        ensures stands { (x : Disks) (letters : List Letter) (clocks : Clocks) (c : Course) (tree : E.Tree) (session : ℕ) → clocks.down (Node node) ≡ false → Stand G.Register O.Owners S.Store E.Engine self.old x (letters ++ out.old) clocks c tree
            → O.own self.old.owners node ≡ Some session → O.end_of self.old.owners node ≡ Some lease.until → LivesIn (last c.register.chain) session → IsUnder self.old node session
            → OnOk result (Turned (Some session) (E.step self.old.engine) (Stand G.Register O.Owners S.Store E.Engine self.new x (letters ++ out.new) clocks) c tree []) }
        ensures waits { (said : List Said) (owners : O) (first : Machine) → OfNode self.old node (λ machine. machine.tidy ≡ first.tidy)
            → OfNode self.old node (Waits O.Owners E.Engine self.old.engine node moment lease.session said owners self.old.owners (S.out_of self.old.store node) (Asking G.Register O.Owners self.old node) first)
            → OnOk result (OfNode self.new node (Waits O.Owners E.Engine self.new.engine node moment lease.session said owners self.new.owners (S.out_of self.new.store node) (Asking G.Register O.Owners self.new node) first)) }
        ensures answers { OnOk result (OfBoth self.old self.new node (λ old new. AreApart old → AnswersCalls moment old new [])) }
        ensures goes { OnOk result (OfBoth self.old self.new node (λ old new. TidyGoes (IsSome old.mark) old new)) }
        ensures cleans { (x : Disks) (letters : List Letter) (clocks : Clocks) (c : Course) (tree : E.Tree) (session : ℕ) → clocks.down (Node node) ≡ false → Stand G.Register O.Owners S.Store E.Engine self.new x letters clocks c tree
            → O.own self.new.owners node ≡ Some session → LivesIn (last c.register.chain) session → IsUnder self.new node session
            → OnOk result (OfBoth self.old self.new node (λ old new. CleansArea (E.is_clean self.old.engine c.truth) (S.made self.old.store).areas old.tidy new.tidy)) }
        ensures held_up { (x : Disks) (letters : List Letter) (clocks : Clocks) (c : Course) (tree : E.Tree) (session : ℕ) → clocks.down (Node node) ≡ false → Stand G.Register O.Owners S.Store E.Engine self.old x (letters ++ out.old) clocks c tree
            → O.own self.old.owners node ≡ Some session → LivesIn (last c.register.chain) session → IsUnder self.old node session
            → OnOk result (OfNode self.new node (IsHeldUp E.Engine self.new.engine (S.out_of self.new.store node) (Asking G.Register O.Owners self.new node))) }
        ensures session { OnOk result (OfBoth self.old self.new node (λ old new. new.session ≡ old.session)) }
        ensures ready { OnOk result (Ready S.Store E.Engine self.new node) }
        ensures own { (other : ℕ) → (O.own self.new.owners other ≡ O.own self.old.owners other) × (O.end_of self.new.owners other ≡ O.end_of self.old.owners other) }
        ensures nodes { O.nodes self.new.owners ≡ O.nodes self.old.owners }
        ensures elsewhere { OnlyStore S.Store node self.old.store self.new.store }
        ensures parts { (self.new.register ≡ self.old.register) × (self.new.engine ≡ self.old.engine) × (S.made self.new.store ≡ S.made self.old.store) }
        ensures others { OnlyMachine node self.old.machines.items self.new.machines.items }
        ensures count { length self.new.machines.items ≡ length self.old.machines.items }
    {
        let place = node as usize;
        let Some(area) = self.machines[place].to_clean() else {
            return Ok(());
        };
        if self.machines[place].mark.is_some() {
            self.machines[place].rest();
            return Ok(());
        }
        if !self.store.done(node) {
            return Ok(());
        }
        let attempt = self
            .engine
            .tidy(self.alloc, area, &self.machines[place].cache)?;
        match attempt {
            Attempt::Need(wants) => self.ask_each(node, wants.items(), out),
            Attempt::Inner(draft) => self.send(node, lease.until, tidying(draft, moment), out),
            Attempt::Answer(_) => {
                self.machines[place].tidy = None;
                Ok(())
            }
            // No tidy of a volume answers so.
            Attempt::Change(_, _) => Ok(()),
        }
    }
}
