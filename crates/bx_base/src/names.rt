//! Names of machines, calls and points.

ghost use Rattle.std.specs.Prelude.{◌≡◌, ◌↔◌, IsTrue};
ghost use Rattle.std.specs.Cmp.{partial_order_from_own_ties};
ghost use Rattle.std.specs.Cmp.Rules.{comparing};
ghost use Rattle.std.specs.Ordering.{MatchOrdering, as_partial_cmp};
ghost use Rattle.std.proofs.Common.{rules};
ghost use Rattle.bx_base.specs.Actors.{ComesBefore, actor_cmp, kind_of, number_of};

use std::cmp::Ordering;

/// A machine of a cluster. Machines are compared in the order nodes, replicas, lock servers, members A of all devices,
/// members B, and those of one kind by their numbers.
#[derive(Clone, Copy, PartialEq, Eq)]
pub enum Actor {
    /// A node, which takes calls.
    Node(u32),
    /// A Paxos replica.
    Replica(u32),
    /// A lock server.
    Server(u32),
    /// A member of a mirrored device: `2 * d` is member A of device d, and `2 * d + 1` member B.
    Member(u32),
}

impl Actor {
    /// Whether it comes before another, as `<` says.
    pub fn comes_before(&self, other: &Actor) -> bool
        ensures { IsTrue result ↔ ComesBefore self.now other.now }
    {
        self < other
    }

    /// The place of its kind among the five kinds, from 0 on.
    fn kind(&self) -> u32
        ensures { result ≡ kind_of self.now }
    {
        match self {
            Actor::Node(_) => 0,
            Actor::Replica(_) => 1,
            Actor::Server(_) => 2,
            Actor::Member(n) => 3 + n % 2,
        }
    }

    /// Its number among those of its kind.
    fn number(&self) -> u32
        ensures { result ≡ number_of self.now }
    {
        match self {
            Actor::Node(n) | Actor::Replica(n) | Actor::Server(n) => *n,
            Actor::Member(n) => n / 2,
        }
    }
}

impl Ord for Actor {
    ghost cmp = { actor_cmp };

    ghost total = { Prim.search (comparing, rules) };

    ghost matches_partial_cmp = { Prim.search (comparing, rules) };

    ghost matches_eq = { Prim.search (comparing, rules) };

    fn cmp(&self, other: &Actor) -> Ordering
        ensures value { result ≡ actor_cmp self.now other.now }
        ensures order { MatchOrdering result (ComesBefore self.now other.now) (self.now ≡ other.now) (ComesBefore other.now self.now) }
    {
        self.kind()
            .cmp(&other.kind())
            .then(self.number().cmp(&other.number()))
    }
}

impl PartialOrd for Actor {
    ghost partial_cmp = { as_partial_cmp actor_cmp };

    ghost laws = { partial_order_from_own_ties (Prim.search (comparing, rules)) (Prim.search (comparing, rules)) };

    fn partial_cmp(&self, other: &Actor) -> Option<Ordering> {
        Some(self.cmp(other))
    }
}

/// How a block is held.
#[derive(Clone, Copy, PartialEq, Eq, Debug)]
pub enum Mode {
    /// By any number of readers.
    Shared,
    /// By one writer.
    Exclusive,
}

/// The number of a call: calls are numbered from 1 as they are taken.
pub type CallNo = u64;

/// The place of a call in the one order of all calls.
#[derive(Clone, Copy, PartialEq, Eq, Debug)]
pub struct Point {
    /// The call.
    pub call: CallNo,
    /// When it acted, in milliseconds.
    pub moment: u64,
    /// How many blocks were free, or 8 where that doesn't matter.
    pub spare: u64,
    /// The handle of the file that it made, or 0.
    pub made: u64,
}
