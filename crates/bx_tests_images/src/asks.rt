//! What a row asks.

use crate::images::rack_of;
use crate::setting::{Setting, number_of, numbers_of};
use crate::{audits, blocks, cells, volumes};
use anyhow::{Error, anyhow};
use bx_disk::Rack;
use bx_global::GlobalState;
use bx_memory_rack::MemRack;
use bx_stop_rack::StopRack;
use bx_tests_lines::{Line, bytes_of};
use std::alloc::Global;

/// The answer to a row: the lines of its file, and its own.
pub(crate) fn answer(alloc: Global, shared: &str, lines: &str) -> Result<String, Error> {
    let setting = Setting::of(shared, lines);
    let rack = rack_of(alloc, &setting, shared, lines)?;
    let mut line = Line::new(alloc);
    put_answer(alloc, &mut line, &setting, rack)?;
    line.into_text()
}

/// Tells what a setting asks of these disks. Behind the words of some stand numbers:
/// - `audit`: the listing of the tree, and the points of the records that are open
/// - `blocks BLOCKS ..`: the points of the records that are open, and blocks of the volume
/// - `slots`: the first block that isn't as the slots ask
/// - `cell DISK SECTOR`: the number of the cell whose first sector this is, and its value
/// - `volume NUMBER DEVICES AREAS`: whether a volume that is made is this image
fn put_answer(
    alloc: Global,
    line: &mut Line,
    setting: &Setting<'_>,
    rack: MemRack,
) -> Result<(), Error> {
    let (word, text) = setting.ask.split_once(' ').unwrap_or((setting.ask, ""));
    let numbers = numbers_of(alloc, text)?;
    let calls = number_of(setting.stop)?;
    if word == "volume" {
        return volumes::tell(alloc, line, rack, numbers.as_slice(), calls);
    }
    let state = state_of(alloc, setting)?;
    let mut rack = StopRack::new(rack, calls);
    tell(alloc, line, &mut rack, word, &state, numbers.as_slice())
}

/// The state of a setting.
fn state_of(alloc: Global, setting: &Setting<'_>) -> Result<GlobalState, Error> {
    let bytes = bytes_of(alloc, setting.state)?;
    match GlobalState::read(alloc, bytes.as_slice())? {
        Some(state) => Ok(state),
        None => Err(anyhow!("no state")),
    }
}

/// Tells what a word asks of a rack in a state.
fn tell<R: Rack>(
    alloc: Global,
    line: &mut Line,
    rack: &mut R,
    word: &str,
    state: &GlobalState,
    numbers: &[u64],
) -> Result<(), Error> {
    match word {
        "audit" => audits::tell(alloc, line, rack, state),
        "blocks" => blocks::tell(alloc, line, rack, state, numbers),
        "slots" => blocks::tell_slots(alloc, line, rack, state),
        "cell" => cells::tell(alloc, line, rack, numbers),
        _ => return Err(anyhow!("nothing is asked")),
    }
    Ok(())
}
