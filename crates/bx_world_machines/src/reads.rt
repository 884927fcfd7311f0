//! Clocks that are read.

ghost use Rattle.std.specs.Prelude.{◌≡◌, ◌+◌, ◌≤◌, ℕ, max, List};
ghost use Rattle.bx_disk.specs.Disks.{Disks};
ghost use Rattle.bx_post.specs.declared.packets.Letter.{Letter};
ghost use Rattle.bx_world_machines.specs.Standing.{IsReady, StandsBy};
ghost use Rattle.bx_world_standing.specs.Standing.{Course};

use crate::machines::Machines;
use bx_facts::{Owners, Register, Store};
use bx_views::Engine;

impl<G: Register, O: Owners, S: Store, E: Engine> Machines<G, O, S, E> {
    /// The clock of a machine is read, and nothing else happens. It takes no memory.
    pub fn note(&mut self, reading: u64)
        requires steady { self.old.clock ≤ reading + 500 }
        ensures stands { (letters : List Letter) (x : Disks) (tree : E.Tree) (c : Course) → StandsBy G.Register O.Owners S.Store E.Engine c self.old letters x tree → StandsBy G.Register O.Owners S.Store E.Engine c self.new letters x tree }
        ensures ready { (sizes : List ℕ) → IsReady G.Register O.Owners S.Store E.Engine self.old sizes → IsReady G.Register O.Owners S.Store E.Engine self.new sizes }
        ensures same { self.new ≡ record self.old { clock = max self.old.clock reading } }
    {
        self.read(reading);
    }
}
