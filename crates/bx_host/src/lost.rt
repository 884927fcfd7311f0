//! When so many machines have stopped that nothing can go on.

ghost use Rattle.std.specs.Prelude.{◌≡◌};
ghost use Rattle.bx_host.specs.Lost.{are_pair, has_pair, is_lost};

use bx_base::{Actor, List};

/// Whether two machines are the members of one device, or two replicas.
fn are_pair(one: Actor, other: Actor) -> bool
    ensures { result ≡ are_pair one other }
{
    match (one, other) {
        (Actor::Replica(m), Actor::Replica(n)) => m != n,
        (Actor::Member(m), Actor::Member(n)) => m != n && m / 2 == n / 2,
        _ => false,
    }
}

/// Whether one of these is the other of a pair.
fn has_pair(who: Actor, all: &[Actor]) -> bool
    ensures { result ≡ has_pair all.now who }
{
    all.iter().any(|other| are_pair(who, *other))
}

/// Whether both members of one device, or two replicas, are among these. It takes no memory.
pub(crate) fn is_lost(stopped: &List<Actor>) -> bool
    ensures { result ≡ is_lost stopped.now }
{
    let all = stopped.items();
    all.iter().any(|who| has_pair(*who, all))
}
