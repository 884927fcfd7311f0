//! Why a change isn't made.

ghost use Rattle.bx_changes.specs.Stopping.{StopsByChunks, StopsChange};

use bx_model::STALE;
use bx_places::is_block;
use bx_reads::blink::BlinkError;
use bx_reads::chunks::ChunkError;
use bx_reads::inodes::Stop;

/// Why a change that may take blocks isn't made.
#[derive(Drop)]
pub enum ChangeError {
    /// It is stopped before it acts.
    Stopped(Stop),
    /// Too few blocks are free: so many, which are fewer than 8. The call is answered `NOSPC`, and changes nothing.
    Full(u64),
}

impl ChangeError {
    /// What stops a change whose call on a tree isn't answered: a block of the volume that is needed, want of blocks or of memory; `STALE` where
    /// what is held is no tree of the volume.
    pub fn of_tree(areas: u16, error: BlinkError) -> ChangeError
        ensures { StopsChange areas error result }
    {
        match error {
            BlinkError::Need(at, mode) => {
                if is_block(at, areas) {
                    ChangeError::Stopped(Stop::Need(at, mode))
                } else {
                    ChangeError::Stopped(Stop::Status(STALE))
                }
            }
            BlinkError::Full(spare) => ChangeError::Full(spare),
            BlinkError::OutOfMemory => ChangeError::Stopped(Stop::OutOfMemory),
            BlinkError::Stale
            | BlinkError::Absent
            | BlinkError::Present
            | BlinkError::NoRoom(_)
            | BlinkError::Crowded => ChangeError::Stopped(Stop::Status(STALE)),
        }
    }

    /// The same of a call on chunks.
    pub fn of_chunks(error: ChunkError) -> ChangeError
        ensures { StopsByChunks error result }
    {
        match error {
            ChunkError::Need(at, mode) => ChangeError::Stopped(Stop::Need(at, mode)),
            ChunkError::Full(spare) => ChangeError::Full(spare),
            ChunkError::OutOfMemory => ChangeError::Stopped(Stop::OutOfMemory),
            ChunkError::Stale | ChunkError::Crowded => ChangeError::Stopped(Stop::Status(STALE)),
        }
    }
}
