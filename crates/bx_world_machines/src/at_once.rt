//! Calls that touch no block.

ghost use Rattle.std.specs.Prelude.{◌≡◌, ◌<◌, ◌≤◌, ℕ, IfOk, List, None};
ghost use Rattle.bx_disk.specs.Disks.{Disks};
ghost use Rattle.bx_node_calls.specs.Turns.{Rounded};
ghost use Rattle.bx_node_tries.specs.Tries.{LedTo};
ghost use Rattle.bx_post.specs.declared.packets.Letter.{Letter};
ghost use Rattle.bx_views.specs.Truths.{Truth, no_hints};
ghost use Rattle.bx_world_machines.specs.AtOnce.{IsAnswered, IsTried, said_by};
ghost use Rattle.bx_world_machines.specs.Standing.{IsReady, StandsBy};
ghost use Rattle.bx_world_standing.specs.Standing.{Course};

use crate::machines::Machines;
use bx_base::{Mode, OutOfMemory, Point};
use bx_facts::{Owners, Register, Store};
use bx_layout::Block;
use bx_node_tries::{Said, Waiting};
use bx_views::{Attempt, Engine, View};
use std::alloc::Global;

/// A view of no blocks. It agrees with every truth.
struct NoBlocks;

impl View for NoBlocks {
    ghost held = { λ view at mode. None };

    ghost hints = { λ view at. None };

    fn block(&self, _at: u64, _mode: Mode) -> Option<&Block> {
        None
    }

    fn hint(&self, _at: u64) -> Option<&Block> {
        None
    }

    ghost shares = { λ view at block is. is };
}

/// What a call comes to that is attempted over no blocks.
#[derive(Drop)]
pub(crate) enum AtOnce {
    /// It is answered.
    Answered(Said),
    /// It needs blocks.
    Waits(Waiting),
}

/// Attempts a call at a moment in milliseconds over no blocks, whatever its node holds or is busy with.
fn try_over_none<E: Engine>(
    alloc: Global,
    engine: &E,
    call: Waiting,
    moment: u64,
) -> Result<AtOnce, OutOfMemory>
    requires { moment ≤ 4294967295999 }
    ensures tried { IfOk result (IsTried moment call) }
    ensures answers { E.at_once engine.now call.message → IfOk result IsAnswered }
    ensures leads { (truth : Truth) (tree : E.Tree) → E.stands engine.now truth no_hints tree → IfOk result (λ tried. LedTo (E.stands engine.now) (E.step engine.now) (E.free engine.now truth) truth tree (said_by tried)) }
{
    let found = engine.attempt(alloc, call.client, call.message.bytes(), moment, &NoBlocks)?;
    let Some(Attempt::Answer(done)) = found else {
        return Ok(AtOnce::Waits(call));
    };
    Ok(AtOnce::Answered(Said {
        point: Point {
            call: call.number,
            moment,
            spare: done.spare,
            made: done.made,
        },
        client: call.client,
        call: call.message.into_bytes(),
        reply: done.reply,
    }))
}

impl<G: Register, O: Owners, S: Store, E: Engine> Machines<G, O, S, E> {
    /// Answers a call that touches no block, whichever node it comes to. The call is to be newer than all that came.
    pub(crate) fn answer_at_once(
        &mut self,
        call: Waiting,
        reading: u64,
    ) -> Result<AtOnce, OutOfMemory>
        requires time { reading ≤ 4294967295999 }
        requires newer { self.old.latest < call.number }
        ensures tried { IfOk result (IsTried reading call) }
        ensures answers { E.at_once self.old.nodes.engine call.message → IfOk result IsAnswered }
        ensures stands { (letters : List Letter) (x : Disks) (tree : E.Tree) (c : Course) → StandsBy G.Register O.Owners S.Store E.Engine c self.old letters x tree
            → IfOk result (λ tried. Rounded E.Engine self.old.nodes.engine (StandsBy G.Register O.Owners S.Store E.Engine c self.new letters x) tree (said_by tried)) }
        ensures ready { (sizes : List ℕ) → IsReady G.Register O.Owners S.Store E.Engine self.old sizes → IsReady G.Register O.Owners S.Store E.Engine self.new sizes }
        ensures latest { IfOk result (λ tried. IsAnswered tried → self.new.latest ≡ call.number) }
        ensures same { self.new ≡ record self.old { latest = self.new.latest } }
        ensures waits { IfOk result (λ tried. (IsAnswered tried → ⊥) → self.new ≡ self.old) }
    {
        let number = call.number;
        match try_over_none(self.alloc, self.nodes.engine(), call, reading)? {
            AtOnce::Answered(said) => {
                self.latest = number;
                Ok(AtOnce::Answered(said))
            }
            AtOnce::Waits(call) => Ok(AtOnce::Waits(call)),
        }
    }
}
