//! What is made of what is seen of three replicas.

ghost use Rattle.std.specs.Prelude.{◌≡◌, ℕ, ◌+◌, ◌<◌, max, IfOk, IsErrOf};
ghost use Rattle.bx_facts.specs.declared.input.OpenError.TheVariants.{Disk as OpenFails, NoLabel, NoMajority, Spent};
ghost use Rattle.bx_paxos_found.specs.Finding.{AreTooFew, IsMadeOf, IsSpentAt, boot_of, count_of, held_of, origin_of};

use crate::boots::boot_of_held;
use crate::choosing::chosen;
use crate::looking::Seen;
use crate::origins::Origins;
use bx_acceptor::Origin;
use bx_facts::OpenError;
use bx_global::{GlobalState, Held};

/// The greatest boot that may be found: half of all are left above it.
const MOST_BOOT: u64 = 4_611_686_018_427_387_903;

/// What the disks of three replicas tell.
#[derive(Drop)]
pub struct FoundState {
    /// The state that they are read as.
    pub state: GlobalState,
    /// How each replica's cell came to be.
    pub origins: Origins,
    /// The greatest boot in a cell that is read.
    pub boot: u64,
}

/// How the cell of a replica came to be of which this is seen.
fn origin_of(seen: &Option<Seen>) -> Origin
    ensures { result ≡ origin_of seen.now }
{
    match seen {
        Some(seen) => Origin::Found(seen.number),
        None => Origin::Apart,
    }
}

/// The greatest boot in it.
fn boot_of(seen: &Option<Seen>) -> u64
    ensures { result ≡ boot_of seen.now }
{
    match seen {
        Some(seen) => boot_of_held(&seen.held),
        None => 0,
    }
}

/// 1 where it counts, else 0.
pub(crate) fn count_of(seen: &Option<Seen>) -> u32
    ensures is { result ≡ count_of seen.now }
    ensures most { result < 2 }
{
    match seen {
        Some(_) => 1,
        None => 0,
    }
}

/// What its cell has.
pub(crate) fn held_of(seen: Option<Seen>) -> Option<Held>
    ensures { result ≡ held_of seen }
{
    match seen {
        Some(seen) => Some(seen.held),
        None => None,
    }
}

/// What is made of what is seen of three replicas. `NoMajority` where fewer than two count, or no index is left behind the state; `Spent`
/// exactly where else the greatest boot is above 4611686018427387903.
pub(crate) fn make(
    first: Option<Seen>,
    second: Option<Seen>,
    third: Option<Seen>,
) -> Result<FoundState, OpenError>
    ensures made { IfOk result (IsMadeOf first second third) }
    ensures few { IsErrOf result NoMajority → AreTooFew first second third }
    ensures spent { (boot : ℕ) → IsErrOf result (Spent boot) → IsSpentAt first second third boot }
    ensures no_label { (disk : ℕ) → IsErrOf result (NoLabel disk) → ⊥ }
    ensures no_fault { IsErrOf result OpenFails → ⊥ }
{
    if count_of(&first) + (count_of(&second) + count_of(&third)) < 2 {
        return Err(OpenError::NoMajority);
    }
    let boot = boot_of(&first).max(boot_of(&second).max(boot_of(&third)));
    let origins = Origins {
        first: origin_of(&first),
        second: origin_of(&second),
        third: origin_of(&third),
    };
    let Some(state) = chosen(held_of(first), held_of(second), held_of(third)) else {
        return Err(OpenError::NoMajority);
    };
    if state.index == u64::MAX {
        return Err(OpenError::NoMajority);
    }
    if boot > MOST_BOOT {
        return Err(OpenError::Spent(boot));
    }
    Ok(FoundState {
        state,
        origins,
        boot,
    })
}
