//! The desk of a node.

ghost use Rattle.std.specs.Prelude.{◌≡◌, ◌++◌, ◌∷◌, length, nat_le, IfOk, OnErr, OnOk};
ghost use Rattle.std.specs.List.{list_any};
ghost use Rattle.std.specs.Option.{option_copied};
ghost use Rattle.bx_desk.specs.Desks.{answered, asked_as, empty_desk, is_from, with_call, with_kept};
ghost use Rattle.bx_replies.specs.Answers.{IsApart, reply_of};

use bx_base::{CallNo, OutOfMemory, Raw};
use bx_replies::Replies;
use std::alloc::Global;
use std::collections::VecDeque;
use std::marker::Model;

/// The most calls that wait at a node.
const MOST: usize = 64;

/// A call that waits at a node, as its client sent it.
#[derive(Drop)]
pub struct Asked {
    /// Its number.
    pub call: CallNo,
    /// Its client.
    pub client: u32,
    /// The bytes of its datagram.
    pub bytes: Raw,
}

/// The calls that wait at a node, and the answers that it keeps for repeats, at most 256. A repeat is the same client and the same bytes.
#[derive(Drop)]
pub struct Desk {
    calls: VecDeque<Asked>,
    replies: Replies,
}

impl Model for Desk {
    ghost use Rattle.bx_desk.specs.Desks.{AtDesk};

    ghost Value = { AtDesk };

    ghost view = { λ desk. record { waits = desk.calls.items; kept = desk.replies } };
}

impl Desk {
    /// A desk with nothing on it.
    pub fn new(alloc: Global) -> Result<Desk, OutOfMemory>
        ensures { IfOk result (λ desk. desk ≡ empty_desk) }
    {
        let replies = Replies::new(alloc)?;
        Ok(Desk {
            calls: VecDeque::new(alloc),
            replies,
        })
    }

    /// Whether a datagram repeats a call that waits.
    pub fn is_waiting(&self, client: u32, datagram: &[u8]) -> bool
        ensures { result ≡ list_any (is_from client datagram.now) self.now.waits }
    {
        self.calls.iter().any(|asked| asked.client == client && asked.bytes.bytes() == datagram)
    }

    /// The reply that is kept for a datagram, where it repeats a call that was answered.
    pub fn kept(&self, client: u32, datagram: &[u8]) -> Option<&Raw>
        ensures reply { option_copied result ≡ reply_of self.now.kept client datagram.now }
        ensures apart { IsApart self.now.kept }
    {
        // Only the proof reads this: no two answers are kept to one call.
        let _count = self.replies.len();
        self.replies.find(client, datagram)
    }

    /// Whether as many calls wait as may, 64 or more.
    pub fn is_full(&self) -> bool
        ensures { result ≡ nat_le 64 (length self.now.waits) }
    {
        self.calls.len() >= MOST
    }

    /// A call waits, with its number, behind all others. Its datagram is copied. Without memory nothing changes.
    pub fn take(
        &mut self,
        alloc: Global,
        call: CallNo,
        client: u32,
        datagram: &[u8],
    ) -> Result<(), OutOfMemory>
        ensures ok { OnOk result (self.new ≡ with_call self.old (record { call = call; client = client; bytes = datagram.now })) }
        ensures err { OnErr result (self.new ≡ self.old) }
    {
        let bytes = Raw::of(alloc, datagram)?;
        self.calls.push_back(Asked {
            call,
            client,
            bytes,
        })?;
        Ok(())
    }

    /// The call with this number is answered: it waits no more, and the answer is kept. Where it doesn't wait nothing changes. After an error the
    /// desk isn't used again.
    pub fn answer(&mut self, alloc: Global, call: CallNo, reply: Raw) -> Result<(), OutOfMemory>
        ensures { OnOk result (self.new ≡ answered self.old call reply) }
    {
        let Some(asked) = self.asked(call) else {
            return Ok(());
        };
        let number = asked.call;
        let client = asked.client;
        let bytes = Raw::of(alloc, asked.bytes.bytes())?;
        self.calls.retain(|other| number != other.call);
        self.replies.keep(client, bytes, reply)
    }

    /// The call with this number, where it waits.
    fn asked(&self, call: CallNo) -> Option<&Asked>
        ensures { option_copied result ≡ asked_as call self.now.waits }
    {
        self.calls.iter().find(|asked| call == asked.call)
    }

    /// A call is answered that never waited: the answer is kept, and what waits waits on. After an error the desk isn't used again.
    pub fn keep(&mut self, client: u32, datagram: Raw, reply: Raw) -> Result<(), OutOfMemory>
        ensures { OnOk result (self.new ≡ with_kept self.old (record { client = client; call = datagram; reply = reply })) }
    {
        self.replies.keep(client, datagram, reply)
    }

    /// Forgets the calls and the answers. It takes no memory.
    pub fn clear(&mut self)
        ensures { self.new ≡ empty_desk }
    {
        self.calls.clear();
        self.replies.clear();
    }
}
