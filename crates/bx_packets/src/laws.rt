//! What holds of the bytes of messages.

ghost use Rattle.std.specs.Prelude.{◌≡◌, ℕ, List};
ghost use Rattle.bx_packets.specs.Messages.{HasCountsIn, IsMessage, Spells, body_text, kind_of};
ghost use Rattle.bx_packets.specs.declared.message.Message.{Message};

/// What is written of a message that meets the conditions is read as that message.
pub fn written_reads()
    ensures spells { (devices : ℕ) (message : Message) → IsMessage devices message → Spells devices message (kind_of message) (body_text message) }
    ensures counts { (devices : ℕ) (message : Message) → IsMessage devices message → HasCountsIn message }
{}

/// A kind and a body are never two messages.
pub fn one_message()
    ensures { (a b : Message) (kind : ℕ) (body : List ℕ) (devices others : ℕ) → Spells devices a kind body → Spells others b kind body → a ≡ b }
{}
