//! The engine of a volume.

ghost use Rattle.std.specs.Prelude.{◌≤◌};

use bx_base::OutOfMemory;
use bx_model::Tree;
use bx_views::{Attempt, Engine, View};
use std::alloc::Global;

/// The engine of a volume: what calls do to the file tree that its blocks stand for.
#[derive(Clone, Copy)]
pub struct BoxFs {
    /// The volume's number, which its file handles carry.
    pub volume: u64,
    /// How many areas it has, 1 to 64.
    pub areas: u16,
    ghost least: { 1 ≤ areas },
    ghost most: { areas ≤ 64 },
}

impl Engine for BoxFs {
    ghost use Rattle.bx_chunks.specs.Counting.{free_slots};
    ghost use Rattle.bx_attempts.specs.bx_clean.specs.Falling.{Falls};
    ghost use Rattle.bx_attempts.specs.bx_clean.specs.Tidying.{IsClean, OnTidyPath};
    ghost use Rattle.bx_engine.specs.Calls.{AsksFree, IsAtOnceCall, IsReadCall, TellsSpace};
    ghost use Rattle.bx_engine.specs.Elsewhere.{stands_elsewhere};
    ghost use Rattle.bx_engine.specs.Falling.{falls_not};
    ghost use Rattle.bx_engine.specs.First.{IsFirstCall, IsReadyCall};
    ghost use Rattle.bx_engine.specs.Full.{IsFullCall};
    ghost use Rattle.bx_engine.specs.Hinting.{had_as_hint, new_stands, without_all, without_one};
    ghost use Rattle.bx_engine.specs.Paths.{IsOnPath};
    ghost use Rattle.bx_engine.specs.Sharing.{shared_on};
    ghost use Rattle.bx_model.specs.Opening.{opening as opening_of};
    ghost use Rattle.bx_steps.specs.Steps.{StandsWith, StepOfTree};
    ghost use Rattle.bx_truth.specs.Opening.{opening_truth};

    type Tree = Tree;

    ghost areas = { λ engine. engine.areas };

    ghost opening = { λ engine. record (opening_of engine.volume) { areas = engine.areas } };

    ghost opening_truth = { λ engine. opening_truth };

    ghost stands = { λ engine. StandsWith engine.volume engine.areas };

    ghost step = { λ engine. StepOfTree };

    ghost path = { λ engine client bytes held hints. IsOnPath held hints engine.volume engine.areas bytes };

    ghost tidy_path = { λ engine area held hints. OnTidyPath held engine.areas area };

    ghost free = { λ engine truth. free_slots engine.areas truth };

    ghost tells_free = { λ engine bytes reply. TellsSpace bytes reply };

    ghost asks_free = { λ engine bytes. AsksFree bytes };

    ghost lacks_room = { λ engine held hints bytes spare. IsFullCall held hints engine.volume engine.areas bytes spare };

    ghost at_once = { λ engine bytes. IsAtOnceCall bytes };

    ghost only_reads = { λ engine bytes. IsReadCall bytes };

    ghost prepares = { λ engine held hints truth tree bytes moment. IsFirstCall engine.volume engine.areas held hints truth tree bytes moment };

    ghost is_ready = { λ engine truth tree bytes. IsReadyCall engine.volume engine.areas truth tree bytes };

    ghost is_clean = { λ engine truth area. IsClean truth area };

    ghost less = { λ engine truth now. Falls engine.areas truth now };

    /// `Need` names a block that isn't held and is on the call's path: of GETATTR, READLINK and STATFS the block of the file's inode, shared; where
    /// that is held, for STATFS the own block of the first area that isn't, for READ a page or a piece of the file, for LOOKUP a page of the directory or
    /// the inode of what the name means, and for READDIR a page of the directory, shared. Of a call that changes the tree it names what its procedure
    /// does (`bx_attempts`). `Inner` are blocks to be written before the call is attempted again. They come exactly of a call that comes to no error, with
    /// 8 blocks free, and lacks something: room for an entry in the directory that it names or for a piece of a file, since a leaf is full or a separator above it
    /// is missing, or bytes that were cut are still there over which it would grow a file. They split that leaf, post that separator, or clear such bytes; a
    /// `Change` comes only where nothing is lacking. A call that comes to an error is an `Answer`. `None` comes where there are fewer than 8 bytes, more
    /// than 9216, or the second word isn't CALL.
    fn attempt<V: View>(
        &self,
        alloc: Global,
        client: u32,
        call: &[u8],
        moment: u64,
        view: &V,
    ) -> Result<Option<Attempt>, OutOfMemory> {
        let Some((xid, read)) = bx_nfs::reads_as(alloc, call)? else {
            return Ok(None);
        };
        let attempt = self.attempt_call(alloc, xid, &read, moment, view)?;
        Ok(Some(attempt))
    }

    /// One of the files of an area that have died loses a block, or the last that it has.
    ///
    /// `Inner` are the blocks that do so, where the area has a dead file; where it has none it is an answer without bytes. `Need` names a
    /// block of the dead file, or the own block of an area, that isn't held.
    fn tidy<V: View>(&self, alloc: Global, area: u16, view: &V) -> Result<Attempt, OutOfMemory> {
        bx_attempts::tidy(alloc, self.areas, area, view)
    }

    ghost opens = { λ engine. new_stands engine.volume engine.areas engine.least };

    ghost extends = { λ engine truth other hints tree same stands. stands_elsewhere engine.volume engine.areas truth other hints tree same stands };

    ghost forgets = { λ engine truth hints tree stands. without_all engine.volume engine.areas truth hints tree stands };

    ghost drops = { λ engine truth hints tree at stands. without_one engine.volume engine.areas truth hints tree at stands };

    ghost hints_at = { λ engine truth hints tree at stands block. had_as_hint engine.volume engine.areas truth hints tree at stands };

    ghost shares = { λ engine client bytes held hints at mode reading on. shared_on held hints engine.volume engine.areas bytes at mode reading on };

    ghost advances = { λ engine truth less. falls_not engine.areas truth less };
}
