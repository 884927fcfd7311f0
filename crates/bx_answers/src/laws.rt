//! What holds of each message.

ghost use Rattle.std.specs.Prelude.{◌≡◌, ℕ, ◌+◌, ◌≤◌, Option};
ghost use Rattle.bx_global.specs.declared.held.Held.{Held};
ghost use Rattle.bx_packets.specs.declared.message.Message.{Message};
ghost use Rattle.bx_answers.specs.Handling.{AtMost, Handles};

/// No message makes an acceptor forget: what it knows to be decided doesn't go back, nor does the ballot that it promised;
/// and where the index that is voted on was the one behind the last decided state, it is so again.
pub fn messages_lead_on()
    ensures known { (held new : Held) (message : Message) (answer : Option Message) → Handles held message new answer → held.decided.index ≤ new.decided.index }
    ensures promise { (held new : Held) (message : Message) (answer : Option Message) → Handles held message new answer → AtMost held.promise new.promise }
    ensures index { (held new : Held) (message : Message) (answer : Option Message) → Handles held message new answer → held.index ≡ held.decided.index + 1 → new.index ≡ new.decided.index + 1 }
{}
