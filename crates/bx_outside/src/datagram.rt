//! Datagrams.

ghost use Rattle.std.specs.Prelude.{◌≡◌, IfOk};

use bx_base::{OutOfMemory, Raw};
use std::alloc::Global;

/// A datagram, and the client that sent it or is to get it.
#[derive(Debug, Drop)]
pub struct Datagram {
    /// The client's number.
    pub client: u32,
    /// Its bytes.
    pub bytes: Raw,
}

impl Datagram {
    /// A datagram of these bytes.
    pub fn of(alloc: Global, client: u32, bytes: &[u8]) -> Result<Datagram, OutOfMemory>
        ensures { IfOk result (λ datagram. datagram ≡ record { client = client; bytes = bytes.now }) }
    {
        Ok(Datagram {
            client,
            bytes: Raw::of(alloc, bytes)?,
        })
    }
}
