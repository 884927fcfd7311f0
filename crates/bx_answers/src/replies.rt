//! What an acceptor answers.

ghost use Rattle.std.specs.Prelude.{◌≡◌, ◌++◌, IfOk, OnOk, OnErr};
ghost use Rattle.bx_global.specs.Bytes.{HasCounts};
ghost use Rattle.bx_answers.specs.Handling.{promise_of};
ghost use Rattle.bx_answers.specs.Replies.{answer_of, letters_of};

use bx_base::{Actor, OutOfMemory};
use bx_global::Held;
use bx_packets::{Message, Promise, send};
use bx_post::Outbox;
use std::alloc::Global;

/// What an acceptor answers, by what it holds then.
#[derive(Clone, Copy)]
pub enum Reply {
    /// Nothing.
    Nothing,
    /// The last decided state.
    Decided,
    /// Its promise.
    Promise,
    /// That it has accepted.
    Accepted,
    /// That it has promised a later ballot.
    Refused,
}

/// Puts what is answered into the box. Where memory runs out, nothing changes.
pub fn tell(
    alloc: Global,
    replica: u32,
    to: Actor,
    held: &Held,
    reply: Reply,
    out: &mut Outbox,
) -> Result<(), OutOfMemory>
    requires accepted { HasCounts held.now.accepted }
    requires decided { HasCounts held.now.decided }
    ensures ok { OnOk result (out.new ≡ out.old ++ letters_of replica to (answer_of held.now reply)) }
    ensures err { OnErr result (out.new ≡ out.old) }
{
    let message = match reply {
        Reply::Nothing => return Ok(()),
        Reply::Decided => Message::Decided(held.decided.copy(alloc)?),
        Reply::Promise => Message::Promise(promise_of(alloc, held)?),
        Reply::Accepted => Message::Accepted(held.ballot, held.index),
        Reply::Refused => Message::Refused(held.index, held.promise),
    };
    send(alloc, Actor::Replica(replica), to, &message, out)
}

/// The promise of what is held.
fn promise_of(alloc: Global, held: &Held) -> Result<Promise, OutOfMemory>
    ensures { IfOk result (λ promise. promise ≡ promise_of held.now) }
{
    Ok(Promise {
        ballot: held.promise,
        index: held.index,
        flag: held.flag,
        accepted: held.ballot,
        state: held.accepted.copy(alloc)?,
    })
}
