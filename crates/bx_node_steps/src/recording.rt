//! A record begins.

ghost use Rattle.std.specs.Prelude.{◌≡◌, ℕ, ◌+◌, ◌<◌, ◌≤◌, IfOk, IfSome, OnOk, Some, slice_get};
ghost use Rattle.bx_node_cache.specs.Kept.{held_in};
ghost use Rattle.bx_node_tries.specs.Tries.{IsChange};
ghost use Rattle.bx_node_steps.specs.Logging.{IsRecordingOf, Begins, FitsStage, IsPlace, IsPutBack, WaitsOn};
ghost use Rattle.bx_node_steps.specs.Tidying.{tidying};
ghost use Rattle.bx_node_steps.specs.declared.machine.Stage.TheVariants.{Idle};
ghost use Rattle.bx_views.specs.Attempts.{IsHeldDraft};

use crate::machine::{Machine, Pending, Stage};
use bx_base::{OutOfMemory, Point};
use bx_node_tries::{Begun, Waiting};
use bx_records::{Draft, Runs};
use bx_redo::Move;
use bx_views::Attempt;

/// How many free blocks a point tells where that doesn't matter.
const ENOUGH: u64 = 8;

/// A record that is to begin.
#[derive(Drop)]
pub struct Recording {
    /// The call for which it only prepares: it waits on.
    pub waits: Option<Waiting>,
    /// What is pending then.
    pub pending: Pending,
    /// The record's point.
    pub point: Point,
}

/// The record that the attempt of a call asks for, at a moment in milliseconds.
pub fn asked_by(begun: Begun, moment: u64) -> Recording
    requires changes { IsChange begun.attempt }
    ensures { IsRecordingOf moment begun.call begun.attempt result }
{
    let Begun { call, attempt } = begun;
    match attempt {
        Attempt::Change(draft, done) => {
            let point = Point {
                call: call.number,
                moment,
                spare: done.spare,
                made: done.made,
            };
            Recording {
                waits: None,
                pending: Pending {
                    call: Some((call, done.reply)),
                    draft,
                },
                point,
            }
        }
        Attempt::Inner(draft) => Recording {
            waits: Some(prepared(call)),
            pending: Pending { call: None, draft },
            point: Point {
                call: 0,
                moment,
                spare: ENOUGH,
                made: 0,
            },
        },
        Attempt::Need(_) | Attempt::Answer(_) => unreachable!(),
    }
}

/// The record of the blocks that a tidy changes, at a moment in milliseconds. It is of no call.
pub fn tidying(draft: Draft, moment: u64) -> Recording
    ensures { result ≡ tidying draft moment }
{
    Recording {
        waits: None,
        pending: Pending { call: None, draft },
        point: Point {
            call: 0,
            moment,
            spare: ENOUGH,
            made: 0,
        },
    }
}

/// The call, for which blocks are written first once more.
fn prepared(call: Waiting) -> Waiting
    ensures only { result ≡ record call { inners = result.inners } }
    ensures counts { call.inners < 4294967295 → result.inners ≡ call.inners + 1 }
{
    let inners = call.inners.saturating_add(1);
    Waiting { inners, ..call }
}

/// A call for which a record only prepares, where there is one, waits on.
pub(crate) fn wait_on(calls: &mut Vec<Waiting>, waits: Option<Waiting>) -> Result<(), OutOfMemory>
    ensures { OnOk result (WaitsOn waits calls.old.items calls.new.items) }
{
    match waits {
        None => Ok(()),
        Some(call) => put_back(calls, call),
    }
}

/// Puts a call among those that wait, behind those that came before it.
fn put_back(calls: &mut Vec<Waiting>, call: Waiting) -> Result<(), OutOfMemory>
    ensures { OnOk result (IsPutBack call calls.old.items calls.new.items) }
{
    let place = place_of(calls, call.number);
    calls.insert(place, call)?;
    Ok(())
}

/// How many calls come before that with this number.
fn place_of(calls: &[Waiting], number: u64) -> usize
    ensures { IsPlace number calls.now result }
{
    for i in 0..calls.len() {
        if number < calls[i].number {
            return i;
        }
    }
    calls.len()
}

impl Machine {
    /// Begins a record, whose body is to be written. A call for which it only prepares waits on.
    pub fn begin(&mut self, recording: Recording) -> Result<Runs, OutOfMemory>
        requires idle { self.old.stage ≡ Idle }
        requires fits { FitsStage self.old.cache.areas self.old.log self.old.stage }
        requires held { IsHeldDraft (held_in self.old.cache.kept) recording.pending.draft }
        ensures { IfOk result (λ runs. Begins recording self.old self.new runs) }
    {
        self.cache.are_blocks();
        let Recording {
            waits,
            pending,
            point,
        } = recording;
        wait_on(&mut self.calls, waits)?;
        self.log.append(point, &pending.draft)?;
        let Move::Write(runs) = self.log.next(None, false)? else {
            unreachable!();
        };
        self.stage = Stage::Records(pending);
        Ok(runs)
    }
}
