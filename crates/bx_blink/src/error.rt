//! Why a call on a tree isn't answered.

ghost use Rattle.std.specs.Prelude.{◌≡◌};
ghost use Rattle.bx_blink.specs.declared.error.BlinkError.TheVariants.{OutOfMemory as MemoryRanOut};
ghost use Rattle.bx_blink.specs.Errors.{of_draft};

use bx_base::Mode;
use bx_truth::records::DraftError;
use thiserror::Error;

/// Why a call on a tree isn't answered. What it was to change is as it was.
#[derive(Clone, Copy, Debug, Error)]
pub enum BlinkError {
    /// The block with this number is to be held in this mode, and isn't.
    #[error("a block is needed")]
    Need(u64, Mode),
    /// What is held is no tree: a page that no hint led to has a header that names another handle, or is no page, or more than
    /// 61440 pages would be passed.
    #[error("no tree is held")]
    Stale,
    /// No slot is free; in the view this many were.
    #[error("no slot is free")]
    Full(u64),
    /// The leaf with this handle has no room.
    #[error("a leaf has no room")]
    NoRoom(u64),
    /// The tree hasn't got the key.
    #[error("the key is absent")]
    Absent,
    /// The tree has the key.
    #[error("the key is present")]
    Present,
    /// Memory ran out.
    #[error("out of memory")]
    OutOfMemory,
    /// The draft would have more than sixteen blocks.
    #[error("more than sixteen blocks")]
    Crowded,
}

impl From<bx_base::OutOfMemory> for BlinkError {
    ghost from_gives = { λ _ error. error ≡ MemoryRanOut };

    fn from(_error: bx_base::OutOfMemory) -> BlinkError {
        BlinkError::OutOfMemory
    }
}

impl From<DraftError> for BlinkError {
    ghost from_gives = { λ given error. error ≡ of_draft given };

    fn from(error: DraftError) -> BlinkError {
        match error {
            DraftError::Crowded => BlinkError::Crowded,
            DraftError::OutOfMemory => BlinkError::OutOfMemory,
        }
    }
}
