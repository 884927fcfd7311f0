//! The blocks of a volume, by their numbers.

ghost use Rattle.std.specs.Prelude.{◌≡◌, ◌≤◌, IfOk, IfSome, IfNone, OnOk, IsErrOf};
ghost use Rattle.bx_base.specs.Faults.{Rose};
ghost use Rattle.bx_disk.specs.declared.fault.RackError.TheVariants.{Fault, OutOfMemory};
ghost use Rattle.bx_layout.specs.declared.block.Block.{Block};
ghost use Rattle.bx_homes.specs.Slots.{StaysSo};
ghost use Rattle.bx_places.specs.Places.{IsBlock};

use bx_disk::RackError;
use bx_layout::Block;

/// What gives the blocks of a volume: their homes, or those overlaid by records. A number has one block at most; where nothing that
/// stands there is one, it has none.
pub trait Blocks {
    ghost use Rattle.std.specs.Prelude.{◌≡◌, ℕ};
    ghost use Rattle.bx_disk.specs.Disks.{Disks};
    ghost use Rattle.bx_layout.specs.declared.block.Block.{Block};

    /// Whether it tells what the disks hold.
    ghost tells: { Self → Type 0 };

    /// Whether blocks can be read off it.
    ghost ready: { Self → Type 0 };

    /// How many areas the volume has.
    ghost areas: { Self → ℕ };

    /// The block with a number is this one.
    ghost stands: { Self → ℕ → Block → Type 0 };

    /// How often its disks have failed.
    ghost faults: { Self → ℕ };

    /// The name of the reference that it holds to what it reads, 0 where it holds none; and the disks behind it.
    ghost lender: { Self → ℕ × Disks };

    /// The block with a number; `None` exactly where there is none. An error is a disk's, or want of memory.
    fn block(&mut self, at: u64) -> Result<Option<Block>, RackError>
        requires ready { ready self.old }
        requires block { IsBlock (areas self.old) at }
        ensures some { tells self.old → IfOk result (λ found. IfSome found (stands self.old at)) }
        ensures none { tells self.old → IfOk result (λ found. IfNone found ((block : Block) → stands self.old at block → ⊥)) }
        ensures stays { tells self.old → StaysSo (stands self.old) (stands self.new) }
        ensures cause { IsErrOf result Fault → Rose (faults self.old) (faults self.new) }
        ensures later { faults self.old ≤ faults self.new }
        ensures memory_counts { IsErrOf result OutOfMemory → faults self.new ≡ faults self.old }
        ensures no_fault { OnOk result (faults self.new ≡ faults self.old) }
        ensures areas { areas self.new ≡ areas self.old }
        ensures lender { lender self.new ≡ lender self.old }
        ensures keeps_ready { ready self.new }
        ensures keeps_telling { tells self.old → tells self.new };

    /// There is one block of a number at most.
    ghost one: { (blocks : Self) (at : ℕ) (a b : Block) → tells blocks → stands blocks at a → stands blocks at b → a ≡ b };
}
