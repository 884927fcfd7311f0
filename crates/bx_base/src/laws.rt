//! What holds of the order of machines.

ghost use Rattle.std.specs.Prelude.{◌≡◌, ◌⊎◌, ℕ, ◌+◌, ◌*◌, ◌<◌};
ghost use Rattle.bx_base.specs.Actors.{ComesBefore};
ghost use Rattle.bx_base.specs.declared.names.Actor.TheVariants.{Node, Replica, Server, Member};
ghost use Rattle.bx_base.specs.declared.names.Actor.{Actor};

/// Nodes come before replicas, these before lock servers, these before all members A, and these before all members B;
/// of one kind the lesser number comes first. No machine comes before itself, nor before one that comes before it, and
/// of two that differ one comes before the other.
pub fn machines_are_in_order()
    ensures nodes { (i j : ℕ) → ComesBefore (Node i) (Replica j) }
    ensures replicas { (i j : ℕ) → ComesBefore (Replica i) (Server j) }
    ensures servers { (i j : ℕ) → ComesBefore (Server i) (Member (2 * j)) }
    ensures members { (i j : ℕ) → ComesBefore (Member (2 * i)) (Member (2 * j + 1)) }
    ensures numbers { (i j : ℕ) → i < j → ComesBefore (Node i) (Node j) × ComesBefore (Replica i) (Replica j) × ComesBefore (Server i) (Server j) }
    ensures devices { (i j : ℕ) → i < j → ComesBefore (Member (2 * i)) (Member (2 * j)) × ComesBefore (Member (2 * i + 1)) (Member (2 * j + 1)) }
    ensures irreflexive { (a : Actor) → ComesBefore a a → ⊥ }
    ensures transitive { (a b c : Actor) → ComesBefore a b → ComesBefore b c → ComesBefore a c }
    ensures total { (a b : Actor) → ComesBefore a b ⊎ ((a ≡ b) ⊎ ComesBefore b a) }
{}
