//! The lock service as the layers above know it.

use crate::locks::Locks;
use bx_base::{Actor, Mode, OutOfMemory};
use bx_facts::{Input, Outbox, Owners};
use bx_global::{Change, GlobalState};

impl Owners for Locks {
    ghost use Rattle.std.specs.Prelude.{◌≡◌, ⊤, true};
    ghost use Rattle.bx_clerk.specs.Clerks.{asked_back, end_as};
    ghost use Rattle.bx_clerk.specs.Requests.{hold_of, request_in, wish_of};
    ghost use Rattle.bx_lock_machines.specs.Keeps.{Keeps};
    ghost use Rattle.bx_locks.specs.Events.{handed_at, input_for};
    ghost use Rattle.bx_locks.specs.Machines.{clerk_of, master_of, nodes_of};
    ghost use Rattle.bx_locks.specs.Meanings.{AreNew, Asks, GivesUp, IsFor, IsSpent};
    ghost use Rattle.bx_locks.specs.Laws.{alone, apart, begins, begins_end, begins_own, ends, ends_none, finds, grows, held, leases, lives, loses, reaches, was_opened};

    ghost is_separate = { ⊤ };

    ghost by_boot = { true };

    ghost is_for = { λ o nodes s. IsFor nodes s o };

    ghost nodes = { λ o. nodes_of o };

    ghost is_new = { λ o. AreNew o };

    ghost own = { λ o node. (clerk_of o node).session };

    ghost end_of = { λ o node. end_as (clerk_of o node).session (clerk_of o node).lease };

    ghost hold = { λ o node block. hold_of (request_in (clerk_of o node).requests block) };

    ghost request = { λ o node block. wish_of (request_in (clerk_of o node).requests block) };

    ghost asks = { λ o node. asked_back (clerk_of o node) };

    ghost is_spent = { λ o node. IsSpent (clerk_of o node) };

    ghost keeps = { λ o past. Keeps (nodes_of o) (master_of o) (clerk_of o) past };

    ghost hands = { λ o known at input change. change ≡ handed_at at known (input_for at input) o };

    ghost grants = { λ o node block mode new. Asks node block mode o new };

    ghost passes_on = { λ o node block new. GivesUp node block o new };

    fn session(&self, node: u32) -> Option<u64> {
        Locks::session(self, node)
    }

    fn lease(&self, node: u32) -> Option<u64> {
        Locks::lease(self, node)
    }

    fn holds(&self, node: u32, block: u64) -> Option<(Mode, u64)> {
        Locks::holds(self, node, block)
    }

    fn wanted(&self, node: u32, block: u64) -> Option<Mode> {
        Locks::wanted(self, node, block)
    }

    fn asked(&self, node: u32) -> Option<(u64, u64)> {
        Locks::asked(self, node)
    }

    fn want(
        &mut self,
        node: u32,
        block: u64,
        mode: Mode,
        out: &mut Outbox,
    ) -> Result<(), OutOfMemory> {
        Locks::want(self, node, block, mode, out)
    }

    fn give_up(
        &mut self,
        node: u32,
        block: u64,
        index: u64,
        out: &mut Outbox,
    ) -> Result<(), OutOfMemory> {
        Locks::give_up(self, node, block, index, out)
    }

    fn take(
        &mut self,
        known: &GlobalState,
        at: Actor,
        input: &Input,
        out: &mut Outbox,
    ) -> Result<Option<Change>, OutOfMemory> {
        Locks::take(self, known, at, input, out)
    }

    fn crash(&mut self, who: Actor) {
        Locks::crash(self, who);
    }

    fn restart(&mut self, who: Actor, boot: u64, _reading: u64) {
        Locks::restart(self, who, boot);
    }

    ghost held = { held };

    ghost ends = { ends };

    ghost ends_none = { ends_none };

    ghost leases = { leases };

    ghost lives = { lives };

    ghost apart = { apart };

    ghost alone = { alone };

    ghost reaches = { reaches };

    ghost was_opened = { was_opened };

    ghost grows = { grows };

    ghost loses = { loses };

    ghost begins_own = { begins_own };

    ghost begins_end = { begins_end };

    ghost begins = { begins };

    ghost finds = { finds };

    ghost has_nodes = { λ o nodes s is. is.made.nodes_are };
}
