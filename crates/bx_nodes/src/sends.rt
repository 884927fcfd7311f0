//! Records that begin, and what comes of them: the log of a node goes on, and what it asks for is sent.

ghost use Rattle.std.specs.Prelude.{◌≡◌, ◌≢◌, ℕ, ◌<◌, ◌≤◌, false, length, List, [], ◌++◌, IfOk, IfSome, IsSome, None, OnOk, Some, option_to_list, slice_get};
ghost use Rattle.bx_base.specs.declared.names.Actor.TheVariants.{Node};
ghost use Rattle.bx_disk.specs.Disks.{Disks};
ghost use Rattle.bx_facts.specs.Chains.{LivesIn, last};
ghost use Rattle.bx_node_cache.specs.Kept.{held_in, hint_in};
ghost use Rattle.bx_node_machines.specs.Machines.{number_of};
ghost use Rattle.bx_node_tries.specs.Tries.{IsToBegin};
ghost use Rattle.bx_nodes.specs.Sending.{BeginsBy, SendsBody, StepsLog, WorksOver};
ghost use Rattle.bx_nodes.specs.Standing.{IsUnder, OfBoth, OfNode, Ready, Rests, Stand};
ghost use Rattle.bx_node_steps.specs.Seen.{replying, seen};
ghost use Rattle.bx_nodes.specs.Turns.{OnlyMachine, Turned};
ghost use Rattle.bx_node_steps.specs.declared.machine.Stage.TheVariants.{Idle};
ghost use Rattle.bx_post.specs.declared.packets.Letter.{Letter};
ghost use Rattle.bx_views.specs.Attempts.{IsHeldDraft};
ghost use Rattle.bx_world_standing.specs.Parts.{Clocks};
ghost use Rattle.bx_world_standing.specs.Standing.{Course};

use crate::nodes::Nodes;
use bx_base::OutOfMemory;
use bx_facts::{Outbox, Owners, Register, Store};
use bx_node_steps::{LogStep, Recording, asked_by};
use bx_node_tries::{Begun, Said};
use bx_views::Engine;

impl<G: Register, O: Owners, S: Store, E: Engine> Nodes<G, O, S, E> {
    /// Begins the record of a call at a moment in milliseconds, where the node's log rests: its body is sent, which members take until the lease ends. A call
    /// for which blocks are only prepared waits on.
    pub fn begin(
        &mut self,
        node: u32,
        until: u64,
        begun: Begun,
        moment: u64,
        out: &mut Outbox,
    ) -> Result<(), OutOfMemory>
        requires there { node < length self.old.machines.items }
        requires none_out { S.out_of self.old.store node ≡ None }
        requires ready { Ready S.Store E.Engine self.old node }
        requires session { IsSome (S.own self.old.store node) }
        requires idle { Rests self.old node }
        requires begun { OfNode self.old node (λ machine. IsToBegin E.Engine self.old.engine (held_in machine.cache.kept) (hint_in machine.cache.hinted) moment begun) }
        ensures stands { (x : Disks) (letters : List Letter) (clocks : Clocks) (c : Course) (tree : E.Tree) (session : ℕ) → clocks.down (Node node) ≡ false
            → Stand G.Register O.Owners S.Store E.Engine self.old x (letters ++ out.old) clocks c tree
            → O.own self.old.owners node ≡ Some session → O.end_of self.old.owners node ≡ Some until → LivesIn (last c.register.chain) session → IsUnder self.old node session
            → OnOk result (Turned (Some session) (E.step self.old.engine) (Stand G.Register O.Owners S.Store E.Engine self.new x (letters ++ out.new) clocks) c tree []) }
        ensures begins { OnOk result (OfBoth self.old self.new node (BeginsBy moment begun (S.own self.old.store node) until (S.out_of self.new.store node))) }
        ensures ready { OnOk result (Ready S.Store E.Engine self.new node) }
        ensures store { (other : ℕ) → (S.own self.new.store other ≡ S.own self.old.store other) × (S.asked self.new.store other ≡ S.asked self.old.store other) × (S.answer self.new.store other ≡ S.answer self.old.store other) }
        ensures elsewhere { (other : ℕ) → other ≢ node → S.out_of self.new.store other ≡ S.out_of self.old.store other }
        ensures parts { (self.new.register ≡ self.old.register) × (self.new.owners ≡ self.old.owners) × (self.new.engine ≡ self.old.engine) × (S.made self.new.store ≡ S.made self.old.store) }
        ensures others { OnlyMachine node self.old.machines.items self.new.machines.items }
        ensures count { length self.new.machines.items ≡ length self.old.machines.items }
    {
        self.send(node, until, asked_by(begun, moment), out)
    }

    /// Begins a record, where the node's log rests: its body is sent, which members take until the lease ends.
    pub(crate) fn send(
        &mut self,
        node: u32,
        until: u64,
        recording: Recording,
        out: &mut Outbox,
    ) -> Result<(), OutOfMemory>
        requires there { node < length self.old.machines.items }
        requires none_out { S.out_of self.old.store node ≡ None }
        requires ready { Ready S.Store E.Engine self.old node }
        requires session { IsSome (S.own self.old.store node) }
        requires idle { Rests self.old node }
        requires held { OfNode self.old node (λ machine. IsHeldDraft (held_in machine.cache.kept) recording.pending.draft) }
        requires numbered { recording.point.call ≡ number_of (replying recording.pending.call) }
        ensures stands { (x : Disks) (letters : List Letter) (clocks : Clocks) (c : Course) (tree : E.Tree) (session : ℕ) → clocks.down (Node node) ≡ false
            → Stand G.Register O.Owners S.Store E.Engine self.old x (letters ++ out.old) clocks c tree
            → O.own self.old.owners node ≡ Some session → O.end_of self.old.owners node ≡ Some until → LivesIn (last c.register.chain) session → IsUnder self.old node session
            → OfNode self.old node (WorksOver E.Engine self.old.engine recording)
            → OnOk result (Turned (Some session) (E.step self.old.engine) (Stand G.Register O.Owners S.Store E.Engine self.new x (letters ++ out.new) clocks) c tree []) }
        ensures sends { OnOk result (OfBoth self.old self.new node (SendsBody recording (S.own self.old.store node) until (S.out_of self.new.store node))) }
        ensures ready { OnOk result (Ready S.Store E.Engine self.new node) }
        ensures store { (other : ℕ) → (S.own self.new.store other ≡ S.own self.old.store other) × (S.asked self.new.store other ≡ S.asked self.old.store other) × (S.answer self.new.store other ≡ S.answer self.old.store other) }
        ensures elsewhere { (other : ℕ) → other ≢ node → S.out_of self.new.store other ≡ S.out_of self.old.store other }
        ensures parts { (self.new.register ≡ self.old.register) × (self.new.owners ≡ self.old.owners) × (self.new.engine ≡ self.old.engine) × (S.made self.new.store ≡ S.made self.old.store) }
        ensures others { OnlyMachine node self.old.machines.items self.new.machines.items }
        ensures count { length self.new.machines.items ≡ length self.old.machines.items }
    {
        let runs = self.machines[node as usize].begin(recording)?;
        self.store.write(node, &runs, until, out)?;
        Ok(())
    }

    /// Goes on with the node's log, where none of its writes is out: what it asks for next is sent, which members take until the lease ends. Says the answer to
    /// the call whose record is acknowledged.
    pub fn step_log(
        &mut self,
        node: u32,
        until: u64,
        out: &mut Outbox,
    ) -> Result<Option<Said>, OutOfMemory>
        requires there { node < length self.old.machines.items }
        requires ready { Ready S.Store E.Engine self.old node }
        requires session { IsSome (S.own self.old.store node) }
        ensures stands { (x : Disks) (letters : List Letter) (clocks : Clocks) (c : Course) (tree : E.Tree) (session : ℕ) → clocks.down (Node node) ≡ false
            → Stand G.Register O.Owners S.Store E.Engine self.old x (letters ++ out.old) clocks c tree
            → O.own self.old.owners node ≡ Some session → O.end_of self.old.owners node ≡ Some until → LivesIn (last c.register.chain) session → IsUnder self.old node session
            → IfOk result (λ said. Turned (Some session) (E.step self.old.engine) (Stand G.Register O.Owners S.Store E.Engine self.new x (letters ++ out.new) clocks) c tree (option_to_list said)) }
        ensures steps { IfOk result (λ said. OfBoth self.old self.new node (λ old new. StepsLog (S.own self.old.store node) until (S.out_of self.old.store node) (S.out_of self.new.store node) old new said)) }
        ensures ready { OnOk result (Ready S.Store E.Engine self.new node) }
        ensures store { (other : ℕ) → (S.own self.new.store other ≡ S.own self.old.store other) × (S.asked self.new.store other ≡ S.asked self.old.store other) × (S.answer self.new.store other ≡ S.answer self.old.store other) }
        ensures elsewhere { (other : ℕ) → other ≢ node → S.out_of self.new.store other ≡ S.out_of self.old.store other }
        ensures parts { (self.new.register ≡ self.old.register) × (self.new.owners ≡ self.old.owners) × (self.new.engine ≡ self.old.engine) × (S.made self.new.store ≡ S.made self.old.store) }
        ensures others { OnlyMachine node self.old.machines.items self.new.machines.items }
        ensures count { length self.new.machines.items ≡ length self.old.machines.items }
    {
        if !self.store.done(node) {
            return Ok(None);
        }
        let LogStep { runs, said } = self.machines[node as usize].log_on()?;
        let Some(runs) = runs else {
            return Ok(said);
        };
        self.store.write(node, &runs, until, out)?;
        Ok(said)
    }
}
