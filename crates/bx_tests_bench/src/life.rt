//! The life of a log of one record.

ghost use Rattle.bx_redo.specs.Steps.{AreBlocksOf};

use crate::bench::stores;
use crate::drafts::{Bytes, draft_of, go_home};
use bx_base::{OutOfMemory, Point};
use bx_disk::Rack;
use bx_records::{Draft, DraftError};
use bx_redo::{Log, Move};
use std::alloc::Global;

/// How far a log came: how many of its records were acknowledged, and the kind of the write that was asked for since then, or 0.
#[derive(Clone, Copy, PartialEq, Eq)]
pub struct Reached {
    pub records: usize,
    pub asked: u8,
}

impl Reached {
    /// Nothing was asked for.
    pub const START: Reached = Reached {
        records: 0,
        asked: 0,
    };
}

/// Moves a log on until nothing is under way, and says whether the rack took all that it asked for.
pub fn moves<R: Rack>(
    log: &mut Log,
    rack: &mut R,
    reached: &mut Reached,
) -> Result<bool, OutOfMemory> {
    let mut done = false;
    for _ in 0..4 {
        if log.is_idle() {
            return Ok(true);
        }
        match log.next(None, done)? {
            Move::Write(runs) => {
                reached.asked = runs.kind();
                done = stores(rack, &runs);
            }
            Move::Acked(_) => {
                reached.records = reached.records.saturating_add(1);
                reached.asked = 0;
            }
            Move::Closed => reached.asked = 0,
            Move::Read(..) | Move::Wait => return Ok(false),
        }
    }
    Ok(log.is_idle())
}

/// The point of a call.
pub fn point_of(call: u64) -> Point {
    Point {
        call,
        moment: 1000,
        spare: 8,
        made: 0,
    }
}

/// Brings a record to its `Acked`, and says whether the rack took it.
pub fn acknowledges<R: Rack>(
    log: &mut Log,
    rack: &mut R,
    draft: &Draft,
    reached: &mut Reached,
) -> Result<bool, OutOfMemory>
    requires { AreBlocksOf 64 draft.now }
{
    if !log.is_idle() || log.open() != 0 {
        return Ok(false);
    }
    log.append(point_of(5), draft)?;
    moves(log, rack, reached)
}

/// Closes a log, and says whether the rack took that.
pub fn closes<R: Rack>(
    log: &mut Log,
    rack: &mut R,
    reached: &mut Reached,
) -> Result<bool, OutOfMemory> {
    if !log.is_idle() || log.open() == 0 {
        return Ok(false);
    }
    log.close();
    moves(log, rack, reached)
}

/// The whole life of a record: body, gate, homes, closing. Says whether the rack took it.
pub fn lives<R: Rack>(
    alloc: Global,
    log: &mut Log,
    rack: &mut R,
    blocks: &[Bytes],
    reached: &mut Reached,
) -> Result<bool, DraftError> {
    let draft = draft_of(alloc, blocks)?;
    Ok(
        acknowledges(log, rack, &draft, reached)?
            && go_home(alloc, rack, blocks)?
            && closes(log, rack, reached)?,
    )
}
