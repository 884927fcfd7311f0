//! What a write at a place leaves.

ghost use Rattle.std.specs.Prelude.{◌≡◌, ℕ, List, ◌++◌, take, drop};
ghost use Rattle.bx_base.specs.Writing.{Writes};

/// A write at a place leaves what is before the place, the bytes, and what is behind them.
pub fn writes_are_whole()
    ensures { (old new bytes : List ℕ) (at end : ℕ) → Writes old new at end bytes → new ≡ take at old ++ (bytes ++ drop end old) }
{}
