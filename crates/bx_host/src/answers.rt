//! What a turn sends.

ghost use Rattle.std.specs.Prelude.{◌≡◌, [], ◌∷◌, IfOk};
ghost use Rattle.bx_base.specs.Faults.{count_up};
ghost use Rattle.bx_host.specs.Sending.{FailsLink, Sends, counted};
ghost use Rattle.bx_host.specs.Steps.{datagram_of, datagrams, owed};

use crate::error::HostError;
use bx_cluster::{Outcome, ReplyOut};
use bx_outside::Link;

/// Sends what outcomes answer, in their order, and answers how many were sent with those so far.
pub(crate) fn send_all<L: Link>(
    link: &mut L,
    outcomes: &[Outcome],
    sent: u64,
) -> Result<u64, HostError>
    ensures sends { Sends L.Link link.old link.new (owed outcomes.now) result }
    ensures count { IfOk result (λ now. now ≡ counted sent (owed outcomes.now)) }
    ensures link { FailsLink L.Link link.old link.new result }
{
    let mut count = sent;
    for outcome in outcomes {
        count = send_outcome(link, outcome, count)?;
    }
    Ok(count)
}

/// Sends the replies of an outcome, and then the kept answer that is sent again; answers the count.
fn send_outcome<L: Link>(link: &mut L, outcome: &Outcome, sent: u64) -> Result<u64, HostError>
    ensures sends { Sends L.Link link.old link.new (datagrams outcome.now) result }
    ensures count { IfOk result (λ now. now ≡ counted sent (datagrams outcome.now)) }
    ensures link { FailsLink L.Link link.old link.new result }
{
    let mut count = sent;
    for reply in outcome.replies.items() {
        count = send(link, reply, count)?;
    }
    match &outcome.again {
        Some(reply) => send(link, reply, count),
        None => Ok(count),
    }
}

/// Sends a reply to its client; answers the count.
fn send<L: Link>(link: &mut L, reply: &ReplyOut, sent: u64) -> Result<u64, HostError>
    ensures sends { Sends L.Link link.old link.new (datagram_of reply.now ∷ []) result }
    ensures count { IfOk result (λ now. now ≡ count_up sent) }
    ensures link { FailsLink L.Link link.old link.new result }
{
    link.send(reply.client, reply.bytes.bytes())?;
    Ok(sent.saturating_add(1))
}
