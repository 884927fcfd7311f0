//! Ballots.

ghost use Rattle.std.specs.Prelude.{◌≡◌, ◌⊎◌, ◌↔◌, IsTrue};
ghost use Rattle.std.specs.Cmp.{partial_order_from_own_ties};
ghost use Rattle.std.specs.Cmp.Rules.{comparing};
ghost use Rattle.std.specs.Ordering.{MatchOrdering, as_partial_cmp};
ghost use Rattle.std.proofs.Common.{rules};
ghost use Rattle.bx_rows.specs.Ballots.{ComesBefore, ballot_cmp};
ghost use Rattle.bx_rows.specs.declared.ballot.Ballot.{Ballot};

use std::cmp::Ordering;

/// A ballot. Ballots are compared by round, then actor, then boot.
#[derive(Clone, Copy, PartialEq, Eq)]
pub struct Ballot {
    /// The round.
    pub round: u64,
    /// The actor that proposes in it.
    pub actor: u32,
    /// The actor's boot.
    pub boot: u64,
}

impl Ballot {
    /// Whether it comes before another, as `<` says.
    pub fn comes_before(&self, other: &Ballot) -> bool
        ensures { IsTrue result ↔ ComesBefore self.now other.now }
    {
        self < other
    }
}

impl Ord for Ballot {
    ghost cmp = { ballot_cmp };

    ghost total = { Prim.search (comparing, rules) };

    ghost matches_partial_cmp = { Prim.search (comparing, rules) };

    ghost matches_eq = { Prim.search (comparing, rules) };

    fn cmp(&self, other: &Ballot) -> Ordering
        ensures value { result ≡ ballot_cmp self.now other.now }
        ensures order { MatchOrdering result (ComesBefore self.now other.now) (self.now ≡ other.now) (ComesBefore other.now self.now) }
    {
        self.round
            .cmp(&other.round)
            .then(self.actor.cmp(&other.actor))
            .then(self.boot.cmp(&other.boot))
    }
}

impl PartialOrd for Ballot {
    ghost partial_cmp = { as_partial_cmp ballot_cmp };

    ghost laws = { partial_order_from_own_ties (Prim.search (comparing, rules)) (Prim.search (comparing, rules)) };

    fn partial_cmp(&self, other: &Ballot) -> Option<Ordering> {
        Some(self.cmp(other))
    }
}

/// No ballot comes before itself, nor before one that comes before it; of two that differ one comes before the other;
/// and `cmp`, by which `<`, `max` and the like go, answers so.
pub fn ballots_are_in_order()
    ensures irreflexive { (a : Ballot) → ComesBefore a a → ⊥ }
    ensures transitive { (a b c : Ballot) → ComesBefore a b → ComesBefore b c → ComesBefore a c }
    ensures total { (a b : Ballot) → ComesBefore a b ⊎ ((a ≡ b) ⊎ ComesBefore b a) }
    ensures compared { (a b : Ballot) → MatchOrdering (ballot_cmp a b) (ComesBefore a b) (a ≡ b) (ComesBefore b a) }
{}
