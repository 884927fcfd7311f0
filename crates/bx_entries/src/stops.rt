//! What stops an attempt, by why a call on a tree or on chunks isn't answered.

ghost use Rattle.bx_entries.specs.Stopping.{StopsBy, StopsByChunks};

use bx_blink::BlinkError;
use bx_chunks::ChunkError;
use bx_inodes::Stop;
use bx_model::STALE;
use bx_places::is_block;

/// What stops an attempt whose call on a tree isn't answered: a block of the volume that is needed, or else want of memory; `STALE` where what
/// is held is no tree of the volume.
pub(crate) fn stop_of(areas: u16, error: BlinkError) -> Stop
    ensures { StopsBy areas error result }
{
    match error {
        BlinkError::Need(at, mode) => {
            if is_block(at, areas) {
                Stop::Need(at, mode)
            } else {
                Stop::Status(STALE)
            }
        }
        BlinkError::OutOfMemory => Stop::OutOfMemory,
        BlinkError::Stale
        | BlinkError::Absent
        | BlinkError::Present
        | BlinkError::Full(_)
        | BlinkError::NoRoom(_)
        | BlinkError::Crowded => Stop::Status(STALE),
    }
}

/// The same of a call on chunks.
pub(crate) fn stop_of_chunks(error: ChunkError) -> Stop
    ensures { StopsByChunks error result }
{
    match error {
        ChunkError::Need(at, mode) => Stop::Need(at, mode),
        ChunkError::OutOfMemory => Stop::OutOfMemory,
        ChunkError::Stale | ChunkError::Full(_) | ChunkError::Crowded => Stop::Status(STALE),
    }
}
