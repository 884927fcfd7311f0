//! Where bytes go.

ghost use Rattle.std.specs.Prelude.{◌≡◌, ◌≤◌, ◌<◌, ℕ, List, ◌++◌, length, take, IfOk, OnOk, OnErr};
ghost use Rattle.bx_base.specs.Faults.{Rose};

use thiserror::Error;

/// A write failed, and the sink's count of faults rose.
#[derive(Clone, Copy, PartialEq, Eq, Debug, Error)]
#[error("write fault")]
pub struct WriteFault;

/// A sink for bytes.
pub trait Sink {
    /// Whether it tells which bytes were written. A file or a terminal doesn't.
    ghost tells: { Self → Type 0 };

    /// The bytes written, where it tells them.
    ghost written: { Self → List ℕ };

    /// How often it has failed.
    ghost faults: { Self → ℕ };

    /// Writes some bytes from the front of a piece, at least one where the piece isn't empty, and answers how
    /// many. A fault writes nothing.
    fn write(&mut self, piece: &[u8]) -> Result<usize, WriteFault>
        ensures fits { IfOk result (λ count. count ≤ length piece.now) }
        ensures some { 0 < length piece.now → IfOk result (λ count. 0 < count) }
        ensures taken { tells self.old → IfOk result (λ count. written self.new ≡ written self.old ++ take count piece.now) }
        ensures no_fault { OnOk result (faults self.new ≡ faults self.old) }
        ensures fault { OnErr result (Rose (faults self.old) (faults self.new)) }
        ensures fault_keeps { tells self.old → OnErr result (written self.new ≡ written self.old) }
        ensures later { faults self.old ≤ faults self.new }
        ensures keeps_telling { tells self.old → tells self.new };
}

/// Writes all of a piece. After a fault the sink has a part of it, from its front and not the whole.
pub fn write_all<K: Sink>(sink: &mut K, piece: &[u8]) -> Result<(), WriteFault>
    ensures ok { K.tells sink.old → OnOk result (K.written sink.new ≡ K.written sink.old ++ piece.now) }
    ensures part { K.tells sink.old → OnErr result ((n : ℕ) × (n < length piece.now) × (K.written sink.new ≡ K.written sink.old ++ take n piece.now)) }
    ensures no_fault { OnOk result (K.faults sink.new ≡ K.faults sink.old) }
    ensures fault { OnErr result (Rose (K.faults sink.old) (K.faults sink.new)) }
    ensures later { K.faults sink.old ≤ K.faults sink.new }
    ensures keeps_telling { K.tells sink.old → K.tells sink.new }
{
    let mut rest = piece;
    while !rest.is_empty() {
        let count = sink.write(rest)?;
        rest = &rest[count..];
    }
    Ok(())
}
