//! Calls that come.

ghost use Rattle.std.specs.Prelude.{◌≡◌, ◌<◌, length, IfSome, List, OnOk, slice_get};
ghost use Rattle.bx_disk.specs.Disks.{Disks};
ghost use Rattle.bx_node_steps.specs.Calls.{AreApart};
ghost use Rattle.bx_nodes.specs.Calls.{AddsCall, IsNewest, WaitsBehind};
ghost use Rattle.bx_nodes.specs.Standing.{BeReady, OfBoth, Stand};
ghost use Rattle.bx_node_steps.specs.Seen.{seen};
ghost use Rattle.bx_nodes.specs.Turns.{OnlyMachine};
ghost use Rattle.bx_post.specs.declared.packets.Letter.{Letter};
ghost use Rattle.bx_world_standing.specs.Parts.{Clocks};
ghost use Rattle.bx_world_standing.specs.Standing.{Course};

use crate::nodes::Nodes;
use bx_base::OutOfMemory;
use bx_facts::{Owners, Register, Store};
use bx_node_tries::Waiting;
use bx_views::Engine;

impl<G: Register, O: Owners, S: Store, E: Engine> Nodes<G, O, S, E> {
    /// Puts a call behind those that wait at a node, as it is newer than they are.
    pub fn call(&mut self, node: u32, call: Waiting) -> Result<(), OutOfMemory>
        requires there { node < length self.old.machines.items }
        ensures waits { OnOk result (OfBoth self.old self.new node (WaitsBehind call)) }
        ensures adds { OnOk result (OfBoth self.old self.new node (λ old new. IsNewest call old → AreApart old → AddsCall call old new)) }
        ensures stands { (x : Disks) (letters : List Letter) (clocks : Clocks) (c : Course) (tree : E.Tree)
            → Stand G.Register O.Owners S.Store E.Engine self.old x letters clocks c tree
            → OnOk result (Stand G.Register O.Owners S.Store E.Engine self.new x letters clocks c tree) }
        ensures ready { BeReady S.Store E.Engine self.old node → OnOk result (BeReady S.Store E.Engine self.new node) }
        ensures seen { seen self.new.machines.items ≡ seen self.old.machines.items }
        ensures parts { (self.new.register ≡ self.old.register) × (self.new.owners ≡ self.old.owners) × (self.new.store ≡ self.old.store) × (self.new.engine ≡ self.old.engine) }
        ensures others { OnlyMachine node self.old.machines.items self.new.machines.items }
        ensures count { length self.new.machines.items ≡ length self.old.machines.items }
    {
        self.machines[node as usize].calls.push(call)?;
        Ok(())
    }
}
