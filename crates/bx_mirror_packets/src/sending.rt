//! Sending what is said.

ghost use Rattle.std.specs.Prelude.{◌≡◌, ◌++◌, ◌∷◌, [], OnOk, OnErr};
ghost use Rattle.bx_mirror_packets.specs.DeviceMessages.{HasCounts, letter_with};

use crate::message::DeviceMessage;
use bx_base::{Actor, OutOfMemory};
use bx_post::Outbox;
use std::alloc::Global;

/// Puts a letter that says this into the box. Where memory runs out, nothing changes.
pub fn send(
    alloc: Global,
    from: Actor,
    to: Actor,
    message: &DeviceMessage,
    out: &mut Outbox,
) -> Result<(), OutOfMemory>
    requires { HasCounts message.now }
    ensures ok { OnOk result (out.new ≡ out.old ++ letter_with from to message.now ∷ []) }
    ensures err { OnErr result (out.new ≡ out.old) }
{
    let body = message.write(alloc)?;
    out.push(from, to, message.kind(), body)
}
