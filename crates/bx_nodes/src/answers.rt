//! The attempts of a turn.

ghost use Rattle.std.specs.Prelude.{◌≡◌, ℕ, ◌<◌, ◌≤◌, false, true, length, All, List, IfOk, IfSome, None, OnOk, Some, slice_get};
ghost use Rattle.bx_base.specs.declared.names.Actor.TheVariants.{Node};
ghost use Rattle.bx_disk.specs.Disks.{Disks};
ghost use Rattle.bx_facts.specs.Chains.{LivesIn, last};
ghost use Rattle.bx_node_cache.specs.Kept.{held_in, hint_in};
ghost use Rattle.bx_node_tries.specs.Tries.{AreNeeded, IsToBegin, MayWait};
ghost use Rattle.bx_nodes.specs.Going.{Settle};
ghost use Rattle.bx_nodes.specs.Standing.{IsUnder, OfBoth, OfNode, Stand};
ghost use Rattle.bx_node_steps.specs.Seen.{seen};
ghost use Rattle.bx_nodes.specs.Turns.{OnlyMachine, Turned};
ghost use Rattle.bx_post.specs.declared.packets.Letter.{Letter};
ghost use Rattle.bx_world_standing.specs.Parts.{Clocks};
ghost use Rattle.bx_world_standing.specs.Standing.{Course};

use crate::nodes::Nodes;
use bx_base::{CallNo, OutOfMemory};
use bx_facts::{Owners, Register, Store};
use bx_node_tries::{Begun, Round, Said, attempt_all};
use bx_records::Wants;
use bx_views::Engine;
use std::mem;

/// What comes of attempts.
#[derive(Drop)]
pub struct Attempted {
    /// The answers, in the order in which the calls acted.
    pub said: Vec<Said>,
    /// The call that begins a record.
    pub begun: Option<Begun>,
    /// What the calls that wait for blocks need, in their order.
    pub needs: Vec<Wants>,
}

impl<G: Register, O: Owners, S: Store, E: Engine> Nodes<G, O, S, E> {
    /// Attempts the calls of a node that aren't newer than a number, at a moment in milliseconds, until one begins a record where one may: those that can be are
    /// answered from what it holds, and the others wait on. For want of memory its calls are lost.
    pub fn attempt(
        &mut self,
        node: usize,
        moment: u64,
        newest: Option<CallNo>,
        may_begin: bool,
    ) -> Result<Attempted, OutOfMemory>
        requires there { node < length self.old.machines.items }
        requires moment { moment ≤ 4294967295999 }
        ensures stands { (x : Disks) (letters : List Letter) (clocks : Clocks) (c : Course) (tree : E.Tree) (session : ℕ) → clocks.down (Node node) ≡ false
            → Stand G.Register O.Owners S.Store E.Engine self.old x letters clocks c tree
            → O.own self.old.owners node ≡ Some session → LivesIn (last c.register.chain) session → IsUnder self.old node session
            → IfOk result (λ attempted. Turned (Some session) (E.step self.old.engine) (Stand G.Register O.Owners S.Store E.Engine self.new x letters clocks) c tree attempted.said.items) }
        ensures goes { IfOk result (Settle newest moment (slice_get self.old.machines.items node) (slice_get self.new.machines.items node)) }
        ensures needs { IfOk result (λ attempted. OfNode self.new node (λ machine. All (AreNeeded E.Engine self.new.engine (held_in machine.cache.kept) (hint_in machine.cache.hinted) moment machine.calls.items) attempted.needs.items)) }
        ensures waits { IfOk result (λ attempted. attempted.begun ≡ None → OfNode self.new node (λ machine. All (MayWait E.Engine self.new.engine (held_in machine.cache.kept) (hint_in machine.cache.hinted) moment newest may_begin attempted.needs.items) machine.calls.items)) }
        ensures may { may_begin ≡ false → IfOk result (λ attempted. attempted.begun ≡ None) }
        ensures begun { IfOk result (λ attempted. IfSome attempted.begun (λ begun. OfNode self.new node (λ machine. IsToBegin E.Engine self.new.engine (held_in machine.cache.kept) (hint_in machine.cache.hinted) moment begun))) }
        ensures only { OnOk result (OfBoth self.old self.new node (λ old new. new ≡ record old { calls = new.calls })) }
        ensures parts { (self.new.register ≡ self.old.register) × (self.new.owners ≡ self.old.owners) × (self.new.store ≡ self.old.store) × (self.new.engine ≡ self.old.engine) }
        ensures others { OnlyMachine node self.old.machines.items self.new.machines.items }
        ensures count { length self.new.machines.items ≡ length self.old.machines.items }
    {
        let machine = &mut self.machines[node];
        let calls = mem::replace(&mut machine.calls, Vec::new(self.alloc));
        let round = attempt_all(
            self.alloc,
            &self.engine,
            &machine.cache,
            moment,
            newest,
            may_begin,
            calls,
        )?;
        let Round {
            said,
            waiting,
            begun,
            needs,
        } = round;
        machine.calls = waiting;
        Ok(Attempted { said, begun, needs })
    }
}
