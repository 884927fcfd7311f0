//! Packets, and those that one event makes.

ghost use Rattle.std.specs.Prelude.{◌≡◌, ◌++◌, ◌∷◌, [], length, OnOk, OnErr};

use bx_base::{Actor, List, OutOfMemory, Raw};
use std::alloc::Global;
use std::marker::Model;

/// What one machine sends to another.
#[derive(Drop)]
pub struct Letter {
    /// The sender.
    pub from: Actor,
    /// The receiver.
    pub to: Actor,
    /// The kind number.
    pub kind: u8,
    /// The body.
    pub body: Raw,
}

/// A letter with its number among all that were sent.
#[derive(Drop)]
pub struct Packet {
    /// From 1 on, in the order of sending.
    pub number: u64,
    /// The sender.
    pub from: Actor,
    /// The receiver.
    pub to: Actor,
    /// The kind number.
    pub kind: u8,
    /// The body.
    pub body: Raw,
}

/// The letters that one event makes, in their order. Contracts see it as their list.
#[derive(Drop)]
pub struct Outbox {
    letters: Vec<Letter>,
}

impl Model for Outbox {
    ghost use Rattle.std.specs.Prelude.{List};
    ghost use Rattle.bx_post.specs.declared.packets.Letter.{Letter};

    ghost Value = { List Letter };

    ghost view = { λ out. out.letters.items };
}

impl Outbox {
    /// No letters yet. It takes no memory.
    pub fn new(alloc: Global) -> Outbox
        ensures { result ≡ [] }
    {
        Outbox {
            letters: Vec::new(alloc),
        }
    }

    /// Puts a letter at the end. Where memory runs out, nothing changes.
    pub fn push(&mut self, from: Actor, to: Actor, kind: u8, body: Raw) -> Result<(), OutOfMemory>
        ensures ok { OnOk result (self.new ≡ self.old ++ (record { from = from; to = to; kind = kind; body = body }) ∷ []) }
        ensures err { OnErr result (self.new ≡ self.old) }
    {
        self.letters.push(Letter {
            from,
            to,
            kind,
            body,
        })?;
        Ok(())
    }

    /// The letters in their order.
    pub fn letters(&self) -> &[Letter]
        ensures { result.now ≡ self.now }
    {
        self.letters.as_slice()
    }

    /// Hands out the letters.
    pub(crate) fn into_letters(self) -> Vec<Letter>
        ensures { result.items ≡ self }
    {
        self.letters
    }
}
