//! Views of blocks.

ghost use Rattle.std.specs.Prelude.{◌≡◌, ℕ, Some};
ghost use Rattle.std.specs.Option.{option_copied};
ghost use Rattle.bx_records.specs.bx_base.specs.declared.names.Mode.TheVariants.{Shared, Exclusive};
ghost use Rattle.bx_records.specs.Drafts.{Block};
ghost use Rattle.bx_views.specs.Truths.{Held, Hints};

use bx_records::Block;
use bx_records::base::Mode;

/// Blocks that are held, and hints of others.
pub trait View {
    /// What is held, by block and mode.
    ghost held: { Self → Held };

    /// What there are hints of.
    ghost hints: { Self → Hints };

    /// A block; `None` exactly where it isn't held in this mode. It takes no memory.
    fn block(&self, at: u64, mode: Mode) -> Option<&Block>
        ensures { option_copied result ≡ held self.now at mode };

    /// A hint of a block: what it held at some time. It takes no memory.
    fn hint(&self, at: u64) -> Option<&Block>
        ensures { option_copied result ≡ hints self.now at };

    /// What is held exclusively counts as shared, too.
    ghost shares: { (view : Self) (at : ℕ) (block : Block) → held view at Exclusive ≡ Some block → held view at Shared ≡ Some block };
}
