//! A node meets another session.

ghost use Rattle.std.specs.Prelude.{◌≡◌, ◌<◌, false, length, IfOk, IfSome, IsSome, List, OnOk, is_some, option_map, slice_get, ℕ};
ghost use Rattle.bx_base.specs.declared.names.Actor.TheVariants.{Node};
ghost use Rattle.bx_disk.specs.Disks.{Disks};
ghost use Rattle.bx_node_steps.specs.Calls.{AreApart, KeepsCalls};
ghost use Rattle.bx_nodes.specs.Renewing.{Renews, own_row};
ghost use Rattle.bx_nodes.specs.Standing.{BeReady, OfBoth, OfNode, Stand};
ghost use Rattle.bx_nodes.specs.Turns.{OnlyMachine};
ghost use Rattle.bx_post.specs.declared.packets.Letter.{Letter};
ghost use Rattle.bx_world_standing.specs.Parts.{Clocks};
ghost use Rattle.bx_world_standing.specs.Standing.{Course};

use crate::nodes::Nodes;
use bx_base::{Actor, OutOfMemory};
use bx_facts::{Owners, Register, Store};
use bx_global::GlobalState;
use bx_rows::{SessionRow, find_row};
use bx_views::Engine;

impl<G: Register, O: Owners, S: Store, E: Engine> Nodes<G, O, S, E> {
    /// Sees to it that a node has what it has under its own session. Where that is another one than it was, the node begins anew: it has nothing but its
    /// calls and its hints, and the call of a record that it was writing waits on; a read that is still out counts for nothing.
    pub fn renew(&mut self, node: u32) -> Result<(), OutOfMemory>
        requires there { (node < length self.old.machines.items) × (node < G.nodes self.old.register) }
        requires ready { BeReady S.Store E.Engine self.old node }
        ensures stands { (x : Disks) (letters : List Letter) (clocks : Clocks) (c : Course) (tree : E.Tree) → clocks.down (Node node) ≡ false
            → Stand G.Register O.Owners S.Store E.Engine self.old x letters clocks c tree
            → OnOk result (Stand G.Register O.Owners S.Store E.Engine self.new x letters clocks c tree
            × OfNode self.new node (λ machine. machine.session ≡ O.own self.new.owners node)) }
        ensures renews { OnOk result (OfBoth self.old self.new node (Renews (O.own self.old.owners node) (G.knows self.old.register (Node node)) (is_some (S.asked self.old.store node)))) }
        ensures calls { OnOk result (OfBoth self.old self.new node (λ old new. AreApart old → KeepsCalls old new)) }
        ensures ready { OnOk result (BeReady S.Store E.Engine self.new node) }
        ensures parts { (self.new.register ≡ self.old.register) × (self.new.owners ≡ self.old.owners) × (self.new.store ≡ self.old.store) × (self.new.engine ≡ self.old.engine) }
        ensures others { OnlyMachine node self.old.machines.items self.new.machines.items }
        ensures count { length self.new.machines.items ≡ length self.old.machines.items }
    {
        let own = self.owners.session(node);
        if self.machines[node as usize].session == own {
            return Ok(());
        }
        let row = row_of(own, self.register.known(Actor::Node(node)));
        let reads = self.store.is_reading(node);
        self.machines[node as usize].begin_anew(self.alloc, row, reads)
    }
}

/// The row of a node's own session, in a state.
fn row_of(own: Option<u64>, known: &GlobalState) -> Option<SessionRow>
    ensures { result ≡ own_row own known.now }
{
    find_row(known.sessions.items(), own?)
}
