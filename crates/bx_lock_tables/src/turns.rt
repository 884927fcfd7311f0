//! Wants of blocks, each with its turn.

ghost use Rattle.std.specs.Prelude.{◌≡◌, ◌==◌, ◌&&◌, ◌++◌, ◌∷◌, [], ltb, not, ℕ, map, filter, IfOk, OnErr, OnOk, if◌then◌else◌};
ghost use Rattle.std.specs.List.{list_any};
ghost use Rattle.std.specs.Map.{values_of};
ghost use Rattle.bx_lock_tables.specs.Queue.{is_other, turn_in, turns_at};

use bx_base::OutOfMemory;
use bx_lock_words::Want;
use std::alloc::Global;
use std::collections::BTreeMap;

/// The wants that wait for each block, with their turns, in their order.
pub(crate) type Blocks = BTreeMap<u64, Vec<(u64, Want)>>;

/// Whether two wants are of different sessions or blocks.
pub(crate) fn is_other_request(want: &Want, other: &Want) -> bool
    ensures { result ≡ is_other want.now other.now }
{
    other.session != want.session || other.block != want.block
}

/// Whether one of the same session and block is here whose number isn't lower.
fn any_newer(turns: &[(u64, Want)], want: &Want) -> bool
    ensures { result ≡ list_any (λ turn. not (is_other want.now turn.1) && not (ltb turn.1.number want.now.number)) turns.now }
{
    turns.iter().any(|turn| !is_other_request(want, &turn.1) && turn.1.number >= want.number)
}

/// Whether one of the same session and block waits for its block whose number isn't lower.
pub(crate) fn is_newer_at(blocks: &Blocks, want: &Want) -> bool
    ensures { result ≡ list_any (λ turn. not (is_other want.now turn.1) && not (ltb turn.1.number want.now.number)) (turns_at blocks.now want.now.block) }
{
    match blocks.get(&want.block) {
        None => false,
        Some(turns) => any_newer(turns, want),
    }
}

/// The turn of a session.
fn turn_in(turns: &[(u64, Want)], session: u64) -> Option<u64>
    ensures { result ≡ turn_in turns.now session }
{
    for turn in turns {
        if turn.1.session == session {
            return Some(turn.0);
        }
    }
    None
}

/// The turn in which a session waits for a block.
pub(crate) fn find_turn(blocks: &Blocks, want: &Want) -> Option<u64>
    ensures { result ≡ turn_in (turns_at blocks.now want.now.block) want.now.session }
{
    turn_in(blocks.get(&want.block)?, want.session)
}

/// The wants themselves.
fn wants_of(alloc: Global, turns: &[(u64, Want)]) -> Result<Vec<Want>, OutOfMemory>
    ensures { IfOk result (λ wants. wants.items ≡ values_of turns.now) }
{
    let mut wants = Vec::new(alloc);
    for turn in turns {
        wants.push(turn.1)?;
    }
    Ok(wants)
}

/// The wants that wait for a block, in their order.
pub(crate) fn wants_in(alloc: Global, blocks: &Blocks, block: u64) -> Result<Vec<Want>, OutOfMemory>
    ensures { IfOk result (λ wants. wants.items ≡ values_of (turns_at blocks.now block)) }
{
    match blocks.get(&block) {
        None => Ok(Vec::new(alloc)),
        Some(turns) => wants_of(alloc, turns),
    }
}

/// Puts a want behind those of its block.
pub(crate) fn put_turn(
    alloc: Global,
    blocks: &mut Blocks,
    turn: u64,
    want: &Want,
) -> Result<(), OutOfMemory>
    ensures ok { OnOk result ((block : ℕ) → turns_at blocks.new block ≡ (if block == want.now.block then turns_at blocks.old block ++ (turn, want.now) ∷ [] else turns_at blocks.old block)) }
    ensures err { OnErr result ((block : ℕ) → turns_at blocks.new block ≡ turns_at blocks.old block) }
{
    if let Some(turns) = blocks.get_mut(&want.block) {
        turns.push((turn, *want))?;
        return Ok(());
    }
    let turns = vec![in alloc; (turn, *want)]?;
    blocks.insert(want.block, turns)?;
    Ok(())
}

/// Takes the wants of a session and block out.
pub(crate) fn take_turn(blocks: &mut Blocks, want: &Want)
    ensures { (block : ℕ) → turns_at blocks.new block ≡ (if block == want.now.block then filter (λ turn. is_other want.now turn.1) (turns_at blocks.old block) else turns_at blocks.old block) }
{
    if let Some(turns) = blocks.get_mut(&want.block) {
        turns.retain(|turn| is_other_request(want, &turn.1));
    }
}
