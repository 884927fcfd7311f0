//! Which of three cells is read.

ghost use Rattle.std.specs.Prelude.{◌≡◌};
ghost use Rattle.bx_paxos_found.specs.Choosing.{accepted_of, before_in, chosen_of, counts_less, decided_of, higher_of, later_of, told_of};

use bx_global::{GlobalState, Held};
use bx_rows::Ballot;

/// What a cell has accepted.
#[derive(Drop)]
pub struct Accepted {
    /// The ballot.
    pub ballot: Ballot,
    /// The state.
    pub state: GlobalState,
}

/// Whether a ballot comes before another.
fn is_before(one: &Ballot, other: &Ballot) -> bool
    ensures { result ≡ before_in one.now other.now }
{
    one.round < other.round
        || (one.round == other.round
            && (one.actor < other.actor || (one.actor == other.actor && one.boot < other.boot)))
}

/// Whether an accepted state counts less than another.
fn counts_less(one: &Accepted, other: &Accepted) -> bool
    ensures { result ≡ counts_less one.now other.now }
{
    one.state.index < other.state.index
        || (one.state.index == other.state.index && is_before(&one.ballot, &other.ballot))
}

/// Of two accepted states that which counts more, the first where both count the same.
fn higher(one: Option<Accepted>, other: Option<Accepted>) -> Option<Accepted>
    ensures { result ≡ higher_of one other }
{
    let Some(first) = one else {
        return other;
    };
    let Some(second) = other else {
        return Some(first);
    };
    if counts_less(&first, &second) {
        Some(second)
    } else {
        Some(first)
    }
}

/// Of two states that of the greater index, the first where both are equal.
fn later(one: Option<GlobalState>, other: Option<GlobalState>) -> Option<GlobalState>
    ensures { result ≡ later_of one other }
{
    let Some(first) = one else {
        return other;
    };
    let Some(second) = other else {
        return Some(first);
    };
    if first.index < second.index {
        Some(second)
    } else {
        Some(first)
    }
}

/// What a cell has accepted, and what it knows to be decided.
fn split(cell: Option<Held>) -> (Option<Accepted>, Option<GlobalState>)
    ensures accepted { result.0 ≡ accepted_of cell }
    ensures decided { result.1 ≡ decided_of cell }
{
    let Some(held) = cell else {
        return (None, None);
    };
    if held.flag == 1 {
        let accepted = Accepted {
            ballot: held.ballot,
            state: held.accepted,
        };
        (Some(accepted), Some(held.decided))
    } else {
        (None, Some(held.decided))
    }
}

/// The accepted state, where it is above the decided one; else that.
fn told(accepted: Option<Accepted>, decided: Option<GlobalState>) -> Option<GlobalState>
    ensures { result ≡ told_of accepted decided }
{
    let Some(level) = decided else {
        return None;
    };
    let Some(ahead) = accepted else {
        return Some(level);
    };
    if level.index < ahead.state.index {
        Some(ahead.state)
    } else {
        Some(level)
    }
}

/// What three cells are read as.
pub(crate) fn chosen(
    first: Option<Held>,
    second: Option<Held>,
    third: Option<Held>,
) -> Option<GlobalState>
    ensures { result ≡ chosen_of first second third }
{
    let (one, level) = split(first);
    let (two, next) = split(second);
    let (three, last) = split(third);
    told(
        higher(higher(one, two), three),
        later(later(level, next), last),
    )
}
