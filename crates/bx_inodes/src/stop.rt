//! What stops an attempt.

ghost use Rattle.std.specs.Prelude.{◌≡◌};
ghost use Rattle.bx_inodes.specs.declared.stop.Stop.TheVariants.{OutOfMemory as MemoryRanOut};

use bx_base::Mode;
use bx_blink::records::Draft;

/// What stops an attempt of a call before it acts.
#[derive(Drop)]
pub enum Stop {
    /// The block with this number is to be held in this mode, and isn't.
    Need(u64, Mode),
    /// These blocks are to be written first. They leave the tree as it is.
    Inner(Draft),
    /// The call is answered this status, an error, and changes nothing.
    Status(u32),
    /// Memory ran out.
    OutOfMemory,
}

impl From<bx_base::OutOfMemory> for Stop {
    ghost from_gives = { λ _ stop. stop ≡ MemoryRanOut };

    fn from(_error: bx_base::OutOfMemory) -> Stop {
        Stop::OutOfMemory
    }
}
