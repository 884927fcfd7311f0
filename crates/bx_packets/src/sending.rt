//! Sending what a packet says.

ghost use Rattle.std.specs.Prelude.{◌≡◌, ◌++◌, ◌∷◌, [], OnOk, OnErr};
ghost use Rattle.bx_packets.specs.Messages.{HasCountsIn, letter_with};

use crate::message::Message;
use bx_base::{Actor, OutOfMemory};
use bx_post::Outbox;
use std::alloc::Global;

/// Puts a letter that says this into the box. Where memory runs out, nothing changes.
pub fn send(
    alloc: Global,
    from: Actor,
    to: Actor,
    message: &Message,
    out: &mut Outbox,
) -> Result<(), OutOfMemory>
    requires { HasCountsIn message.now }
    ensures ok { OnOk result (out.new ≡ out.old ++ letter_with from to message.now ∷ []) }
    ensures err { OnErr result (out.new ≡ out.old) }
{
    let body = message.write(alloc)?;
    out.push(from, to, message.kind(), body)
}
