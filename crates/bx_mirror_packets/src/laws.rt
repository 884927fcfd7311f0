//! What holds of the bytes of messages.

ghost use Rattle.std.specs.Prelude.{◌≡◌, ℕ, List};
ghost use Rattle.bx_mirror_packets.specs.DeviceMessages.{HasCounts, IsDeviceMessage, Spells, body_text, kind_of};
ghost use Rattle.bx_mirror_packets.specs.declared.message.DeviceMessage.{DeviceMessage};

/// What is written of a message that meets the conditions is read as that message.
pub fn written_reads()
    ensures spells { (message : DeviceMessage) → IsDeviceMessage message → Spells message (kind_of message) (body_text message) }
    ensures counts { (message : DeviceMessage) → IsDeviceMessage message → HasCounts message }
{}

/// A kind and a body are never two messages.
pub fn one_message()
    ensures { (a b : DeviceMessage) (kind : ℕ) (body : List ℕ) → Spells a kind body → Spells b kind body → a ≡ b }
{}
