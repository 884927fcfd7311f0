//! Where datagrams come from and go to.

ghost use Rattle.std.specs.Prelude.{◌≡◌, ◌≤◌, ℕ, List, [], ◌∷◌, ◌++◌, length, Option, IfOk, IfSome, IsErrOf, OnErr, OnOk};
ghost use Rattle.bx_base.specs.Faults.{Rose};
ghost use Rattle.bx_outside.specs.Datagrams.{answer_of};
ghost use Rattle.bx_outside.specs.declared.datagram.Datagram.{Datagram};
ghost use Rattle.bx_outside.specs.declared.link.LinkError.TheVariants.{Fault};

use bx_base::OutOfMemory;
use thiserror::Error;

/// Why a link didn't receive or send.
#[derive(Clone, Copy, PartialEq, Eq, Debug, Error)]
pub enum LinkError {
    /// It failed, and its count of faults rose.
    #[error("link fault")]
    Fault,
    /// Memory ran out.
    #[error("out of memory")]
    OutOfMemory,
}

impl From<OutOfMemory> for LinkError {
    ghost use Rattle.bx_outside.specs.declared.link.LinkError.TheVariants.{OutOfMemory as NoMemory};

    ghost from_gives = { λ _ error. error ≡ NoMemory };

    fn from(_error: OutOfMemory) -> LinkError {
        LinkError::OutOfMemory
    }
}

/// A link to clients, each of which has a number.
pub trait Link {
    /// Whether it tells what it gave and what was sent. A socket doesn't.
    ghost tells: { Self → Type 0 };

    /// What `receive` answered, where it tells that: a datagram, or none where the wait passed without one; the oldest first.
    ghost given: { Self → List (Option Datagram) };

    /// The datagrams that were sent, where it tells them, the oldest first.
    ghost sent: { Self → List Datagram };

    /// How often it has failed.
    ghost faults: { Self → ℕ };

    /// Waits a while for a datagram, puts its bytes, of which there are at most 65536, in the place of those in `into`, and answers the client that sent
    /// it. `None` where the wait passed without one. After an error nothing was given, and `into` may hold anything.
    fn receive(&mut self, into: &mut Vec<u8>) -> Result<Option<u32>, LinkError>
        ensures given { tells self.old → IfOk result (λ client. given self.new ≡ given self.old ++ answer_of client into.new.items ∷ []) }
        ensures given_keeps { tells self.old → OnErr result (given self.new ≡ given self.old) }
        ensures sent { tells self.old → sent self.new ≡ sent self.old }
        ensures fits { IfOk result (λ found. IfSome found (λ client. length into.new.items ≤ 65536)) }
        ensures no_fault { OnOk result (faults self.new ≡ faults self.old) }
        ensures fault { IsErrOf result Fault → Rose (faults self.old) (faults self.new) }
        ensures later { faults self.old ≤ faults self.new }
        ensures keeps_telling { tells self.old → tells self.new };

    /// Sends a datagram to a client. After an error nothing was sent, as far as it tells.
    fn send(&mut self, client: u32, bytes: &[u8]) -> Result<(), LinkError>
        ensures sent { tells self.old → OnOk result (sent self.new ≡ sent self.old ++ record { client = client; bytes = bytes.now } ∷ []) }
        ensures sent_keeps { tells self.old → OnErr result (sent self.new ≡ sent self.old) }
        ensures given { tells self.old → given self.new ≡ given self.old }
        ensures no_fault { OnOk result (faults self.new ≡ faults self.old) }
        ensures fault { IsErrOf result Fault → Rose (faults self.old) (faults self.new) }
        ensures later { faults self.old ≤ faults self.new }
        ensures keeps_telling { tells self.old → tells self.new };
}
