//! Runs: how the first entry from a key on is looked for, along the leaves.

ghost use Rattle.std.specs.Prelude.{◌≡◌, ◌-◌, IfOk, []};
ghost use Rattle.bx_base.specs.declared.names.Mode.TheVariants.{Shared};
ghost use Rattle.bx_page.specs.Contents.{first, from};
ghost use Rattle.bx_blink.specs.Walks.{reads_with, decide, start, most};
ghost use Rattle.bx_blink.specs.Runs.{Runs, at_leaf, follow};

use crate::steps::{End, Found, Out, Spot, decide, look};
use crate::walks::MOST;
use bx_base::{Mode, OutOfMemory, Raw};
use bx_page_bytes::{EntryBytes, PageBytes};
use bx_truth::records::Draft;
use bx_truth::views::View;
use std::alloc::Global;

/// How a run ends.
#[derive(Drop)]
pub(crate) enum RunEnd<'a> {
    /// It wants a block, held in a mode.
    Wants(u64, Mode),
    /// What is held is no tree.
    Broken,
    /// At a leaf, with the key that it looks from there, and the first entry of the leaf from that key on.
    First(Raw, PageBytes<'a>, EntryBytes<'a>),
    /// There is none.
    Nothing,
}

/// What follows a step of a run.
#[derive(Drop)]
pub(crate) enum Turn<'a> {
    /// The run goes on at a spot, with this key.
    Moves(Raw, Spot),
    /// It ends.
    Rests(RunEnd<'a>),
}

/// Looks for the first entry from a key on, from the page with a handle. It reads each page that it passes once.
pub(crate) fn run<'a, V: View>(
    alloc: Global,
    draft: &'a Draft,
    view: &'a V,
    from: u64,
    not_below: &[u8],
) -> Result<RunEnd<'a>, OutOfMemory>
    ensures { IfOk result (Runs (reads_with (V.held view.now) (V.hints view.now) draft.now) most not_below.now (start from Shared)) }
{
    let mut key = Raw::of(alloc, not_below)?;
    let mut spot = Spot {
        handle: from,
        via: None,
        mode: Mode::Shared,
    };
    for step in 0..MOST {
        let found = look(draft, view, &spot, 0);
        match follow(alloc, found, &spot, key)? {
            Turn::Moves(other, next) => {
                key = other;
                spot = next;
            }
            Turn::Rests(end) => return Ok(end),
        }
    }
    Ok(RunEnd::Broken)
}

/// What follows a step.
fn follow<'a>(
    alloc: Global,
    found: Found<'a>,
    spot: &Spot,
    key: Raw,
) -> Result<Turn<'a>, OutOfMemory>
    ensures { IfOk result (λ is. is ≡ follow key (decide 0 Shared key spot.now found.entry)) }
{
    match decide(found, spot, key.bytes(), 0, Mode::Shared) {
        Out::Goes(next) => Ok(Turn::Moves(key, next)),
        Out::Stops(End::Needs(at, mode)) => Ok(Turn::Rests(RunEnd::Wants(at, mode))),
        Out::Stops(End::Lost) => Ok(Turn::Rests(RunEnd::Broken)),
        Out::Stops(End::Lands(_, page)) => leaf_turn(alloc, page, key),
    }
}

/// What follows at a leaf.
fn leaf_turn<'a>(alloc: Global, page: PageBytes<'a>, key: Raw) -> Result<Turn<'a>, OutOfMemory>
    ensures { IfOk result (λ is. is ≡ at_leaf key page.entry (first (from page.entry.entries key)) page.entry.high) }
{
    match page.first_from(key.bytes()) {
        Some(entry) => Ok(Turn::Rests(RunEnd::First(key, page, entry))),
        None => match page.high() {
            None => Ok(Turn::Rests(RunEnd::Nothing)),
            Some(high) => {
                let high = Raw::of(alloc, high)?;
                let next = Spot {
                    handle: page.right(),
                    via: None,
                    mode: Mode::Shared,
                };
                Ok(Turn::Moves(high, next))
            }
        },
    }
}
