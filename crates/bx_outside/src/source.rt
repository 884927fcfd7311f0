//! Where bytes come from.

ghost use Rattle.std.specs.Prelude.{◌≡◌, ◌≤◌, ◌<◌, ℕ, List, [], ◌++◌, length, take, IfOk, OnOk, OnErr};
ghost use Rattle.bx_base.specs.Faults.{Rose};

use thiserror::Error;

/// A read failed, and the source's count of faults rose.
#[derive(Clone, Copy, PartialEq, Eq, Debug, Error)]
#[error("read fault")]
pub struct ReadFault;

/// A source of bytes.
pub trait Source {
    /// Whether it tells which bytes are left. A file or a terminal doesn't.
    ghost tells: { Self → Type 0 };

    /// The bytes that are left, where it tells them.
    ghost left: { Self → List ℕ };

    /// How often it has failed.
    ghost faults: { Self → ℕ };

    /// Reads some bytes to the front of a slice, and answers how many. 0 bytes into a slice that isn't empty
    /// mean that there are no more. A fault takes nothing from the source.
    fn read(&mut self, into: &mut [u8]) -> Result<usize, ReadFault>
        ensures fits { IfOk result (λ count. count ≤ length into.old) }
        ensures given { tells self.old → IfOk result (λ count. left self.old ≡ take count into.new ++ left self.new) }
        ensures end { tells self.old → 0 < length into.old → IfOk result (λ count. count ≡ 0 → left self.old ≡ []) }
        ensures no_fault { OnOk result (faults self.new ≡ faults self.old) }
        ensures fault { OnErr result (Rose (faults self.old) (faults self.new)) }
        ensures fault_keeps { tells self.old → OnErr result (left self.new ≡ left self.old) }
        ensures later { faults self.old ≤ faults self.new }
        ensures keeps_telling { tells self.old → tells self.new };
}
