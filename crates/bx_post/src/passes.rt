//! Which packets may arrive.

ghost use Rattle.std.specs.Prelude.{◌≡◌, ℕ, Bool};
ghost use Rattle.bx_base.specs.declared.names.Actor.{Actor};

use bx_base::Actor;

/// A test of packets by sender, receiver and kind.
pub trait Passes {
    /// Whether packets of a kind from one machine to another pass.
    ghost passes: { Self → Actor → Actor → ℕ → Bool };

    /// Whether packets of a kind from one machine to another pass. It takes no memory.
    fn passes(&self, from: Actor, to: Actor, kind: u8) -> bool
        ensures { result ≡ passes self.now from to kind };
}
