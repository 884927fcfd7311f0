//! Datagrams that are calls.

ghost use Rattle.std.specs.Prelude.{◌≡◌, true, false, IfNone, IfSome};
ghost use Rattle.bx_rpc.specs.Message.{is_message as is_call};

use bx_base::Raw;
use bx_rpc::is_message;
use std::marker::Model;

/// A datagram that is a call (RFC 5531, section 9). Contracts see it as its bytes.
#[derive(Drop)]
pub struct Message {
    bytes: Raw,
}

impl Model for Message {
    ghost use Rattle.std.specs.Prelude.{◌≡◌, ℕ, true, List};
    ghost use Rattle.bx_rpc.specs.Message.{is_message};

    ghost Value = { List ℕ };

    ghost view = { λ message. message.bytes };

    ghost invariant = { λ message. is_message message.bytes ≡ true };
}

impl Message {
    /// A datagram as a call; `None` exactly where it is none.
    pub fn read(datagram: Raw) -> Option<Message>
        ensures same { IfSome result (λ message. message ≡ datagram) }
        ensures some { IfSome result (λ message. is_call datagram ≡ true) }
        ensures none { IfNone result (is_call datagram ≡ false) }
    {
        if is_message(datagram.bytes()) {
            Some(Message { bytes: datagram })
        } else {
            None
        }
    }

    /// The bytes. They are a call's.
    pub fn bytes(&self) -> &[u8]
        ensures bytes { result.now ≡ self.now }
        ensures call { is_call self.now ≡ true }
    {
        self.bytes.bytes()
    }

    /// The bytes, as they were read.
    pub fn into_bytes(self) -> Raw
        ensures { result ≡ self }
    {
        let Message { bytes } = self;
        bytes
    }
}
