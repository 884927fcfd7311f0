//! What attempts answer.

ghost use Rattle.std.specs.Prelude.{◌≡◌, ◌<◌, ◌^◌, IfOk};
ghost use Rattle.bx_views.specs.declared.attempt.Attempt.TheVariants.{Answer};
ghost use Rattle.bx_attempts.specs.Replies.{IsChanged, IsOutcome, IsRefused, IsReplied, IsStopped, done_of, done_with, plainly, simply};

use bx_base::OutOfMemory;
use bx_changes::ChangeError;
use bx_inodes::Stop;
use bx_model::{NOSPC, Reply};
use bx_records::{Draft, Wants};
use bx_views::{Attempt, Done};
use std::alloc::Global;

/// The count of free blocks that is told where it doesn't matter: enough.
const ENOUGH: u64 = 8;

/// The handle that is told where no file was made.
const NO_FILE: u64 = 0;

/// What is told of a call that acted, by the call's number and its reply: so many free blocks, and no file that it made.
fn told(alloc: Global, xid: u32, reply: Reply, spare: u64) -> Result<Done, OutOfMemory>
    ensures { IfOk result (λ done. done ≡ done_with xid reply spare) }
{
    let reply = bx_nfs::text(alloc, xid, &reply)?;
    Ok(Done {
        reply,
        spare,
        made: NO_FILE,
    })
}

/// The answer with a reply, which changes no block.
pub fn answered(alloc: Global, xid: u32, reply: Reply) -> Result<Attempt, OutOfMemory>
    ensures { IfOk result (λ attempt. attempt ≡ Answer (done_of xid reply)) }
{
    let done = told(alloc, xid, reply, ENOUGH)?;
    Ok(Attempt::Answer(done))
}

/// The answer with a reply that tells how many blocks are free.
pub fn answered_with(
    alloc: Global,
    xid: u32,
    reply: Reply,
    free: u64,
) -> Result<Attempt, OutOfMemory>
    ensures { IfOk result (λ attempt. attempt ≡ Answer (done_with xid reply free)) }
{
    let done = told(alloc, xid, reply, free)?;
    Ok(Attempt::Answer(done))
}

/// What an attempt of a call that only reads answers: its reply, or what stopped it.
pub fn replied(alloc: Global, xid: u32, reply: Result<Reply, Stop>) -> Result<Attempt, OutOfMemory>
    ensures { IfOk result (IsReplied xid reply) }
{
    match reply {
        Ok(reply) => answered(alloc, xid, reply),
        Err(stop) => stopped(alloc, xid, stop),
    }
}

/// A change of the blocks of a draft, with a reply, and the handle of the file that it made, or 0. Where the draft has no block it is an answer.
fn changed(
    alloc: Global,
    xid: u32,
    draft: Draft,
    reply: Reply,
    made: u64,
) -> Result<Attempt, OutOfMemory>
    ensures is { IfOk result (IsChanged xid draft reply made) }
    ensures fits { made < 2 ^ 64 }
{
    let reply = bx_nfs::text(alloc, xid, &reply)?;
    let done = Done {
        reply,
        spare: ENOUGH,
        made,
    };
    if draft.blocks().is_empty() {
        Ok(Attempt::Answer(done))
    } else {
        Ok(Attempt::Change(draft, done))
    }
}

/// What an attempt that was stopped answers.
pub fn stopped(alloc: Global, xid: u32, stop: Stop) -> Result<Attempt, OutOfMemory>
    ensures { IfOk result (IsStopped xid stop) }
{
    match stop {
        Stop::Need(at, mode) => {
            let wants = Wants::of(alloc, &[(at, mode)])?;
            Ok(Attempt::Need(wants))
        }
        Stop::Inner(draft) => Ok(Attempt::Inner(draft)),
        Stop::Status(status) => answered(alloc, xid, Reply::Status(status)),
        Stop::OutOfMemory => Err(OutOfMemory),
    }
}

/// What an attempt of a change that isn't made answers.
fn refused(alloc: Global, xid: u32, error: ChangeError) -> Result<Attempt, OutOfMemory>
    ensures { IfOk result (IsRefused xid error) }
{
    match error {
        ChangeError::Stopped(stop) => stopped(alloc, xid, stop),
        ChangeError::Full(spare) => answered_with(alloc, xid, Reply::Status(NOSPC), spare),
    }
}

/// What an attempt answers of what a procedure came to.
pub(crate) fn attempted(
    alloc: Global,
    xid: u32,
    outcome: Result<(Draft, Reply, u64), ChangeError>,
) -> Result<Attempt, OutOfMemory>
    ensures { IfOk result (IsOutcome xid outcome) }
{
    match outcome {
        Ok((draft, reply, made)) => changed(alloc, xid, draft, reply, made),
        Err(error) => refused(alloc, xid, error),
    }
}

/// The outcome of a procedure that makes no file.
pub(crate) fn with_no_file(
    outcome: Result<(Draft, Reply), ChangeError>,
) -> Result<(Draft, Reply, u64), ChangeError>
    ensures { result ≡ plainly outcome }
{
    match outcome {
        Ok((draft, reply)) => Ok((draft, reply, NO_FILE)),
        Err(error) => Err(error),
    }
}

/// The outcome of one that takes no blocks either.
pub(crate) fn stopping(
    outcome: Result<(Draft, Reply), Stop>,
) -> Result<(Draft, Reply, u64), ChangeError>
    ensures { result ≡ simply outcome }
{
    match outcome {
        Ok((draft, reply)) => Ok((draft, reply, NO_FILE)),
        Err(stop) => Err(ChangeError::Stopped(stop)),
    }
}
