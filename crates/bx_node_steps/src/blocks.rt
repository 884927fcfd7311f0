//! Blocks that are taken in, and let go.

ghost use Rattle.std.specs.Prelude.{◌≡◌, ℕ, OnOk};
ghost use Rattle.bx_base.specs.declared.names.Mode.{Mode};
ghost use Rattle.bx_node_steps.specs.Changing.{LetsGo, TakesIn};
ghost use Rattle.bx_node_steps.specs.declared.machine.Fetch.TheVariants.{Block as Reads};
ghost use Rattle.bx_places.specs.Places.{IsBlock};

use crate::machine::{Fetch, Machine};
use bx_base::{OutOfMemory, Raw};
use bx_layout::Block;
use std::alloc::Global;
use std::mem;

impl Machine {
    /// Takes in what was read: the block is held as it was read for. Bytes that are no block are let go.
    pub fn take_in(&mut self, alloc: Global, bytes: &Raw) -> Result<(), OutOfMemory>
        requires fetch { (at : ℕ) (mode : Mode) → self.old.fetch ≡ Reads at mode → IsBlock self.old.cache.areas at }
        ensures takes { OnOk result (TakesIn bytes.now self.old self.new) }
    {
        let fetch = mem::replace(&mut self.fetch, Fetch::Nothing);
        if let Fetch::Block(at, mode) = fetch {
            if let Some(block) = Block::read(alloc, bytes.bytes())? {
                self.cache.hold(at, mode, block)?;
            }
        }
        Ok(())
    }

    /// Lets a block go: what is read of it counts for nothing.
    pub fn let_go(&mut self, at: u64)
        ensures { LetsGo at self.old self.new }
    {
        self.cache.let_go(at);
        if let Fetch::Block(block, _) = self.fetch {
            if block == at {
                self.fetch = Fetch::Dropped;
            }
        }
    }
}
