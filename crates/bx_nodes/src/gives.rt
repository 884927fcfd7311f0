//! What a node gives back.

ghost use Rattle.std.specs.Prelude.{◌≡◌, ◌++◌, ◌⊎◌, ℕ, ◌<◌, ◌≤◌, false, true, length, List, IfSome, IsSome, OnOk, None, Some, slice_get};
ghost use Rattle.bx_base.specs.declared.names.Actor.TheVariants.{Node};
ghost use Rattle.bx_disk.specs.Disks.{Disks};
ghost use Rattle.bx_facts.specs.Chains.{LivesIn, last};
ghost use Rattle.bx_facts.specs.Holds.{first_of, without_block};
ghost use Rattle.bx_nodes.specs.Asks.{Later, OnlyHolds};
ghost use Rattle.bx_nodes.specs.Giving.{GivesBack};
ghost use Rattle.bx_node_steps.specs.Changing.{LetsGo};
ghost use Rattle.bx_node_steps.specs.Gives.{KeepsRest, MayKeep, marked, newest, since, waits_since};
ghost use Rattle.bx_nodes.specs.Standing.{IsUnder, OfBoth, OfNode, Ready, Rests, Stand};
ghost use Rattle.bx_node_steps.specs.Seen.{seen};
ghost use Rattle.bx_nodes.specs.Turns.{OnlyMachine};
ghost use Rattle.bx_node_steps.specs.declared.machine.Stage.TheVariants.{Idle};
ghost use Rattle.bx_post.specs.declared.packets.Letter.{Letter};
ghost use Rattle.bx_world_standing.specs.Parts.{Clocks};
ghost use Rattle.bx_world_standing.specs.Standing.{Course};

use crate::nodes::Nodes;
use bx_base::{Actor, OutOfMemory};
use bx_facts::{Owners, Register, Store};
use bx_node_steps::waits_since;
use bx_post::Outbox;
use bx_views::Engine;

impl<G: Register, O: Owners, S: Store, E: Engine> Nodes<G, O, S, E> {
    /// Notes since when the first block is asked back that a node is asked for.
    pub fn note_asked(&mut self, node: u32)
        requires there { node < length self.old.machines.items }
        ensures noted { OfNode self.old node (λ old. slice_get self.new.machines.items node ≡ Some (record old { mark = marked (first_of (O.asks self.old.owners node)) old })) }
        ensures seen { seen self.new.machines.items ≡ seen self.old.machines.items }
        ensures parts { (self.new.register ≡ self.old.register) × (self.new.owners ≡ self.old.owners) × (self.new.store ≡ self.old.store) × (self.new.engine ≡ self.old.engine) }
        ensures others { OnlyMachine node self.old.machines.items self.new.machines.items }
        ensures count { length self.new.machines.items ≡ length self.old.machines.items }
    {
        let asked = self.owners.asked(node);
        self.machines[node as usize].note(asked);
    }

    /// Gives back the blocks that a node is asked for, in the order of the sessions that ask; not one that a later session than its own asks for, while a
    /// call still waits that waited when that was seen first. Only for a node whose log rests and that has no write out.
    pub fn give_back(
        &mut self,
        node: u32,
        session: u64,
        out: &mut Outbox,
    ) -> Result<(), OutOfMemory>
        requires there { (node < length self.old.machines.items) × (node < G.nodes self.old.register) }
        requires ready { Ready S.Store E.Engine self.old node }
        requires rests { Rests self.old node }
        requires none_out { S.out_of self.old.store node ≡ None }
        ensures stands { (x : Disks) (letters : List Letter) (clocks : Clocks) (c : Course) (tree : E.Tree) (session : ℕ) → clocks.down (Node node) ≡ false
            → Stand G.Register O.Owners S.Store E.Engine self.old x (letters ++ out.old) clocks c tree
            → O.own self.old.owners node ≡ Some session → LivesIn (last c.register.chain) session → IsUnder self.old node session
            → OnOk result (Later (λ later. Stand G.Register O.Owners S.Store E.Engine self.new x (letters ++ out.new) clocks later tree) c) }
        ensures gives { OnOk result (OfBoth self.old self.new node (λ old new. (back : List ℕ) × GivesBack O.Owners node session back self.old.owners old self.new.owners new)) }
        ensures left { OnOk result (IfSome (first_of (O.asks self.new.owners node)) (λ asked. MayKeep (O.hold self.new.owners node asked.0) session asked (slice_get self.new.machines.items node))) }
        ensures keeps { OnOk result (OfBoth self.old self.new node (KeepsRest session (O.asks self.old.owners node))) }
        ensures fewer { OnOk result (length (O.asks self.new.owners node) ≤ length (O.asks self.old.owners node)) }
        ensures ready { OnOk result (Ready S.Store E.Engine self.new node) }
        ensures rests { OnOk result (Rests self.new node) }
        ensures only { OnOk result (OfBoth self.old self.new node OnlyHolds) }
        ensures parts { (self.new.register ≡ self.old.register) × (self.new.engine ≡ self.old.engine) × (self.new.store ≡ self.old.store) }
        ensures own { (other : ℕ) → (O.own self.new.owners other ≡ O.own self.old.owners other) × (O.end_of self.new.owners other ≡ O.end_of self.old.owners other) }
        ensures nodes { O.nodes self.new.owners ≡ O.nodes self.old.owners }
        ensures others { OnlyMachine node self.old.machines.items self.new.machines.items }
        ensures count { length self.new.machines.items ≡ length self.old.machines.items }
    {
        let Some((block, asking)) = self.owners.asked(node) else {
            return Ok(());
        };
        if !self.may_give(node, session, block, asking) {
            return Ok(());
        }
        self.give_up(node, block, out)?;
        self.give_back(node, session, out)
    }

    /// Whether a block that a session asks back is given up now.
    fn may_give(&self, node: u32, session: u64, block: u64, asking: u64) -> bool
        requires there { node < length self.now.machines.items }
        ensures may { result ≡ true → IsSome (O.hold self.now.owners node block) }
        ensures free { result ≡ true → OfNode self.now node (λ machine. (asking < session) ⊎ (waits_since (since block asking machine) machine.calls.items ≡ false)) }
        ensures may_not { result ≡ false → MayKeep (O.hold self.now.owners node block) session (block, asking) (slice_get self.now.machines.items node) }
    {
        if self.owners.holds(node, block).is_none() {
            return false;
        }
        let machine = &self.machines[node as usize];
        asking < session || !waits_since(machine.calls.as_slice(), machine.since(block, asking))
    }

    /// Gives up a block that is held, at what the node knows.
    fn give_up(&mut self, node: u32, block: u64, out: &mut Outbox) -> Result<(), OutOfMemory>
        requires there { (node < length self.old.machines.items) × (node < G.nodes self.old.register) }
        requires ready { Ready S.Store E.Engine self.old node }
        requires rests { Rests self.old node }
        requires none_out { S.out_of self.old.store node ≡ None }
        requires held { IsSome (O.hold self.old.owners node block) }
        ensures stands { (x : Disks) (letters : List Letter) (clocks : Clocks) (c : Course) (tree : E.Tree) (session : ℕ) → clocks.down (Node node) ≡ false
            → Stand G.Register O.Owners S.Store E.Engine self.old x (letters ++ out.old) clocks c tree
            → O.own self.old.owners node ≡ Some session → LivesIn (last c.register.chain) session → IsUnder self.old node session
            → OnOk result (Later (λ later. Stand G.Register O.Owners S.Store E.Engine self.new x (letters ++ out.new) clocks later tree) c) }
        ensures goes { OnOk result (OfBoth self.old self.new node (LetsGo block)) }
        ensures gives { OnOk result (O.passes_on self.old.owners node block self.new.owners × (O.hold self.new.owners node block ≡ None) × (O.asks self.new.owners node ≡ without_block block (O.asks self.old.owners node))) }
        ensures rests { OnOk result (Rests self.new node) }
        ensures ready { OnOk result (Ready S.Store E.Engine self.new node) }
        ensures parts { (self.new.register ≡ self.old.register) × (self.new.engine ≡ self.old.engine) × (self.new.store ≡ self.old.store) }
        ensures own { (other : ℕ) → (O.own self.new.owners other ≡ O.own self.old.owners other) × (O.end_of self.new.owners other ≡ O.end_of self.old.owners other) }
        ensures nodes { O.nodes self.new.owners ≡ O.nodes self.old.owners }
        ensures others { OnlyMachine node self.old.machines.items self.new.machines.items }
        ensures count { length self.new.machines.items ≡ length self.old.machines.items }
    {
        let index = self.register.known(Actor::Node(node)).index;
        self.machines[node as usize].let_go(block);
        self.owners.give_up(node, block, index, out)
    }
}
