//! Readers and writers of std as sources and sinks.

use crate::sink::{Sink, WriteFault};
use crate::source::{ReadFault, Source};
use std::io::{Read, Write};
use std::marker::Model;

/// A reader as a source, or a writer as a sink. It tells its bytes where the reader or the writer does, and counts its errors.
#[derive(Drop)]
pub struct Stream<S: Drop> {
    stream: S,
    faults: u64,
}

impl<S: Drop> Model for Stream<S> {
    ghost use Rattle.bx_outside.specs.Streams.{Counted};

    ghost Value = { Counted S };

    ghost view = { λ s. record { stream = s.stream; faults = s.faults } };
}

impl<S: Drop> Stream<S> {
    ghost use Rattle.std.specs.Prelude.{◌≡◌};

    /// The reader or the writer, with no fault so far.
    pub fn new(stream: S) -> Stream<S>
        ensures { result ≡ record { stream = stream; faults = 0 } }
    {
        Stream { stream, faults: 0 }
    }
}

impl<R: Read + Drop> Source for Stream<R> {
    ghost use Rattle.std.specs.Prelude.{IsSome, unwrap_or, []};

    ghost tells = { λ s. IsSome (R.remaining s.stream) };

    ghost left = { λ s. unwrap_or (R.remaining s.stream) [] };

    ghost faults = { λ s. s.faults };

    fn read(&mut self, into: &mut [u8]) -> Result<usize, ReadFault> {
        match self.stream.read(into) {
            Ok(count) => Ok(count),
            Err(_) => {
                self.faults = self.faults.saturating_add(1);
                Err(ReadFault)
            }
        }
    }
}

impl<W: Write + Drop> Sink for Stream<W> {
    ghost use Rattle.std.specs.Prelude.{IsSome, unwrap_or, []};

    ghost tells = { λ s. IsSome (W.contents s.stream) };

    ghost written = { λ s. unwrap_or (W.contents s.stream) [] };

    ghost faults = { λ s. s.faults };

    /// A write that takes nothing of a piece is a fault.
    fn write(&mut self, piece: &[u8]) -> Result<usize, WriteFault> {
        match self.stream.write(piece) {
            Ok(count) if count > 0 || piece.is_empty() => Ok(count),
            _ => {
                self.faults = self.faults.saturating_add(1);
                Err(WriteFault)
            }
        }
    }
}
