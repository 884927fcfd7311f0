//! Clocks.

ghost use Rattle.std.specs.Prelude.{ℕ, List, [], ◌∷◌, ◌++◌};

/// A clock.
pub trait Clock {
    /// These may be the readings that it gave, the oldest first. Of a clock that tells nothing any readings may be.
    ghost gave: { Self → List ℕ → Type 0 };

    /// The reading now, in milliseconds. It takes no memory and doesn't fail.
    fn now(&mut self) -> u64
        ensures gave { (readings : List ℕ) → gave self.old readings → gave self.new (readings ++ result ∷ []) };
}
