//! The attempts.

ghost use Rattle.std.specs.Prelude.{◌≡◌, ℕ, ◌≤◌, [], All, IfOk, IfSome, None, OnOk, true, false};
ghost use Rattle.bx_node_tries.specs.Tries.{AllGo, AreNeeded, AreNone, CallGoes, IsToBegin, LedTo, MayWait, is_newer};
ghost use Rattle.bx_views.specs.Truths.{IsTruth, Truth};

use crate::round::{Begun, Round, Said, Waiting};
use bx_base::{CallNo, OutOfMemory, Point};
use bx_views::{Attempt, Done, Engine, View};
use std::alloc::Global;

/// Attempts the calls that wait, in their order, over one view at a moment in milliseconds; those that are over wait on, and so do those that are newer than a number, where one is told.
/// Where a record may be begun, the first call whose attempt changes blocks begins it, and no other is attempted behind it.
pub fn attempt_all<E: Engine, V: View>(
    alloc: Global,
    engine: &E,
    view: &V,
    moment: u64,
    newest: Option<CallNo>,
    may_begin: bool,
    calls: Vec<Waiting>,
) -> Result<Round, OutOfMemory>
    requires moment { moment ≤ 4294967295999 }
    ensures led { (truth : Truth) (first : E.Tree) → IsTruth (V.held view.now) truth → E.stands engine.now truth (V.hints view.now) first
        → IfOk result (λ round. LedTo (E.stands engine.now) (E.step engine.now) (E.free engine.now truth) truth first round.said.items) }
    ensures waits { IfOk result (λ round. round.begun ≡ None → All (MayWait E.Engine engine.now (V.held view.now) (V.hints view.now) moment newest may_begin round.needs.items) round.waiting.items) }
    ensures needs { IfOk result (λ round. All (AreNeeded E.Engine engine.now (V.held view.now) (V.hints view.now) moment round.waiting.items) round.needs.items) }
    ensures goes { IfOk result (λ round. (first : Round) × AreNone first × AllGo newest moment calls.items first round) }
    ensures begun { IfOk result (λ round. IfSome round.begun (IsToBegin E.Engine engine.now (V.held view.now) (V.hints view.now) moment)) }
    ensures may { may_begin ≡ false → IfOk result (λ round. round.begun ≡ None) }
{
    let mut round = Round {
        said: Vec::new(alloc),
        waiting: Vec::new(alloc),
        begun: None,
        needs: Vec::new(alloc),
    };
    for call in calls {
        if round.begun.is_some() {
            round.waiting.push(call)?;
        } else {
            try_one(
                alloc, engine, view, moment, newest, may_begin, call, &mut round,
            )?;
        }
    }
    Ok(round)
}

/// Attempts one call, where it is attempted still and isn't newer than a number.
fn try_one<E: Engine, V: View>(
    alloc: Global,
    engine: &E,
    view: &V,
    moment: u64,
    newest: Option<CallNo>,
    may_begin: bool,
    call: Waiting,
    round: &mut Round,
) -> Result<(), OutOfMemory>
    requires none { round.old.begun ≡ None }
    requires moment { moment ≤ 4294967295999 }
    ensures led { (truth : Truth) (first : E.Tree) → IsTruth (V.held view.now) truth → E.stands engine.now truth (V.hints view.now) first → LedTo (E.stands engine.now) (E.step engine.now) (E.free engine.now truth) truth first round.old.said.items
        → OnOk result (LedTo (E.stands engine.now) (E.step engine.now) (E.free engine.now truth) truth first round.new.said.items) }
    ensures waits { All (MayWait E.Engine engine.now (V.held view.now) (V.hints view.now) moment newest may_begin round.old.needs.items) round.old.waiting.items → OnOk result (All (MayWait E.Engine engine.now (V.held view.now) (V.hints view.now) moment newest may_begin round.new.needs.items) round.new.waiting.items) }
    ensures needs { All (AreNeeded E.Engine engine.now (V.held view.now) (V.hints view.now) moment round.old.waiting.items) round.old.needs.items → OnOk result (All (AreNeeded E.Engine engine.now (V.held view.now) (V.hints view.now) moment round.new.waiting.items) round.new.needs.items) }
    ensures goes { OnOk result (CallGoes newest moment call round.old round.new) }
    ensures begun { OnOk result (IfSome round.new.begun (IsToBegin E.Engine engine.now (V.held view.now) (V.hints view.now) moment)) }
    ensures may { may_begin ≡ false → OnOk result (round.new.begun ≡ None) }
{
    if !call.is_attempted() || is_newer(newest, call.number) {
        round.waiting.push(call)?;
        return Ok(());
    }
    let bytes = call.message.bytes();
    let Some(attempt) = engine.attempt(alloc, call.client, bytes, moment, view)? else {
        unreachable!();
    };
    match attempt {
        Attempt::Answer(done) => round.said.push(said(call, moment, done))?,
        Attempt::Need(wants) => {
            round.needs.push(wants)?;
            round.waiting.push(call)?;
        }
        Attempt::Change(draft, done) if may_begin => {
            round.begun = Some(Begun {
                call,
                attempt: Attempt::Change(draft, done),
            });
        }
        Attempt::Inner(draft) if may_begin => {
            round.begun = Some(Begun {
                call,
                attempt: Attempt::Inner(draft),
            });
        }
        Attempt::Change(_, _) | Attempt::Inner(_) => round.waiting.push(call)?,
    }
    Ok(())
}

/// Whether a call is newer than a number, where there is one.
fn is_newer(newest: Option<CallNo>, number: CallNo) -> bool
    ensures { result ≡ is_newer newest number }
{
    newest.is_some_and(|newest| newest < number)
}

/// The answer to a call that acted and changes no block.
fn said(call: Waiting, moment: u64, done: Done) -> Said
    ensures { result ≡ record { point = record { call = call.number; moment = moment; spare = done.spare; made = done.made }; client = call.client; call = call.message; reply = done.reply } }
{
    Said {
        point: Point {
            call: call.number,
            moment,
            spare: done.spare,
            made: done.made,
        },
        client: call.client,
        call: call.message.into_bytes(),
        reply: done.reply,
    }
}
