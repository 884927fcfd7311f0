//! The lines of a table of cases, one by one.

use crate::opening::opened;
use crate::reading::{Line, line_of};
use crate::telling::{tell_listing, tell_outcome};
use bx_base::OutOfMemory;
use bx_model::{Call, Reply, Tree};
use std::alloc::Global;
use std::io;

/// The greatest moment, in milliseconds.
const LAST_MOMENT: u64 = 4294967295999;

/// Runs the lines of standard input.
pub(crate) fn run_all(
    rt: &(impl Input + Print + Alloc),
    alloc: Global,
    tree: &mut Tree,
) -> io::Result<()> {
    for line in rt.lines(alloc) {
        let line = line?;
        run(rt, alloc, tree, line.as_str())?;
    }
    Ok(())
}

/// Runs a line.
fn run(rt: &(impl Print + Alloc), alloc: Global, tree: &mut Tree, text: &str) -> io::Result<()> {
    if text.starts_with('#') {
        return println!(rt; "{text}");
    }
    if text == "listing" {
        return tell_listing(rt, tree);
    }
    if text.starts_with("tree ") || text.starts_with("times ") {
        return match prepare(alloc, tree, text) {
            Ok(()) => Ok(()),
            Err(_) => println!(rt; "out of memory"),
        };
    }
    tell_outcome(rt, once(alloc, tree, text))
}

/// Runs a line that prints nothing: begins with another tree, or makes a call several times.
fn prepare(alloc: Global, tree: &mut Tree, text: &str) -> Result<(), OutOfMemory> {
    if let Some(begun) = text.strip_prefix("tree ") {
        *tree = opened(alloc, begun)?;
    }
    if let Some(repeated) = text.strip_prefix("times ") {
        repeat(alloc, tree, repeated)?;
    }
    Ok(())
}

/// Makes a call.
fn once(alloc: Global, tree: &mut Tree, text: &str) -> Result<Option<Reply>, OutOfMemory> {
    let line = line_of(alloc, tree.volume, text)?;
    act(tree, &line)
}

/// Makes a call so many times as the first word says.
fn repeat(alloc: Global, tree: &mut Tree, text: &str) -> Result<(), OutOfMemory> {
    let Some((count, call)) = text.split_once(' ') else {
        return Ok(());
    };
    let mut line = line_of(alloc, tree.volume, call)?;
    for turn in 0..count.parse::<u64>().unwrap_or(0) {
        line.turn = turn;
        drop(act(tree, &line)?);
    }
    Ok(())
}

/// Makes the call that a line spells. The call is dropped by name: where it went out of scope by itself, the check
/// would go through all that it may be in this place.
fn act(tree: &mut Tree, line: &Line<'_>) -> Result<Option<Reply>, OutOfMemory> {
    let call = line.call();
    let answer = answered(tree, &call, line);
    drop(call);
    answer
}

/// What the tree answers.
fn answered(tree: &mut Tree, call: &Call, line: &Line<'_>) -> Result<Option<Reply>, OutOfMemory> {
    let moment = line.number(1).min(LAST_MOMENT);
    bx_tree_calls::act(tree, call, moment, line.word(2) as u64, line.handle(3))
}
