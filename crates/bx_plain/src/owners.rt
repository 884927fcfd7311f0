//! Owners on one machine.

ghost use Rattle.std.specs.Prelude.{◌≡◌, ◌≢◌, ◌+◌, ◌<◌, ◌≤◌, ◌⊎◌, ℕ, [], OnOk, Some, None, IsSome, IsSomeAnd};
ghost use Rattle.bx_base.specs.declared.names.Mode.TheVariants.{Exclusive};
ghost use Rattle.bx_facts.specs.Holds.{KeepsHolds, KeepsOthers};
ghost use Rattle.bx_plain.specs.Asks.{AlikeBut};
ghost use Rattle.bx_plain.specs.Fits.{IsPlainState, RowsStand};
ghost use Rattle.bx_plain.specs.Grants.{Grants, IsAlike, IsAnswered, IsGone, IsLeft, Passes};
ghost use Rattle.bx_plain.specs.Rows.{AllLet, floor_in, hold_in, sessions_at, want_in};

use crate::asks::first_asked;
use crate::rows::{Row, given_after};
use crate::table::{Table, floor_of, hold_at, is_free, row_of, want_at};
use bx_base::{Actor, Mode, OutOfMemory};
use bx_facts::{Input, Outbox, Owners};
use bx_global::{Change, GlobalState};
use std::alloc::Global;

/// When a session ends, in milliseconds.
const NEVER: u64 = 4294967295999;

/// Who holds which block. A want is granted at once where no other node's hold stands against it, and else when none does any more. Node n has
/// session n + 1, at every boot, which doesn't end.
#[derive(Drop)]
pub struct PlainOwners {
    nodes: u32,
    rows: Table,
}

impl PlainOwners {
    /// Nobody holds anything. It takes no memory.
    pub fn new(alloc: Global, nodes: u32) -> PlainOwners
        ensures { (result.nodes ≡ nodes) × (result.rows ≡ []) }
    {
        PlainOwners {
            nodes,
            rows: Table::new(alloc),
        }
    }

    /// Grants what a session wants of a block, where nothing stands against it.
    fn grant(&mut self, session: u64, block: u64) -> Result<(), OutOfMemory>
        ensures stand { RowsStand self.old.rows → OnOk result (RowsStand self.new.rows) }
        ensures holds { OnOk result (KeepsHolds (hold_in self.old.rows) (hold_in self.new.rows)) }
        ensures floor { (at : ℕ) → OnOk result (floor_in self.new.rows at ≡ floor_in self.old.rows at) }
        ensures wants { (other at : ℕ) → OnOk result ((want_in self.new.rows other at ≡ None) ⊎ (want_in self.new.rows other at ≡ want_in self.old.rows other at)) }
        ensures quiet { (other : ℕ) → want_in self.old.rows other block ≡ None → OnOk result ((want_in self.new.rows other block ≡ None) × (hold_in self.new.rows other block ≡ hold_in self.old.rows other block)) }
        ensures alike { OnOk result (AlikeBut block self.old.rows self.new.rows) }
        ensures passes { OnOk result (Passes block self.old.rows self.new.rows) }
        ensures none_left { OnOk result (IsLeft self.new.rows session block → ⊥) }
        ensures sessions { OnOk result (sessions_at block self.new.rows ≡ sessions_at block self.old.rows) }
        ensures nodes { self.new.nodes ≡ self.old.nodes }
    {
        let row = row_of(&self.rows, session, block);
        if !row.is_wanted {
            return Ok(());
        }
        if row.is_held {
            return Ok(());
        }
        if !is_free(&self.rows, session, block, row.mode) {
            return Ok(());
        }
        let index = floor_of(&self.rows, block);
        self.rows.put(Row {
            index,
            is_held: true,
            is_wanted: false,
            ..row
        })?;
        return Ok(());
    }

    /// Grants what is wanted of a block, where nothing stands against it.
    fn grant_waiting(&mut self, block: u64) -> Result<(), OutOfMemory>
        ensures stand { RowsStand self.old.rows → OnOk result (RowsStand self.new.rows) }
        ensures holds { OnOk result (KeepsHolds (hold_in self.old.rows) (hold_in self.new.rows)) }
        ensures floor { (at : ℕ) → OnOk result (floor_in self.new.rows at ≡ floor_in self.old.rows at) }
        ensures wants { (other at : ℕ) → OnOk result ((want_in self.new.rows other at ≡ None) ⊎ (want_in self.new.rows other at ≡ want_in self.old.rows other at)) }
        ensures quiet { (other : ℕ) → want_in self.old.rows other block ≡ None → OnOk result ((want_in self.new.rows other block ≡ None) × (hold_in self.new.rows other block ≡ hold_in self.old.rows other block)) }
        ensures alike { OnOk result (AlikeBut block self.old.rows self.new.rows) }
        ensures passes { OnOk result (Passes block self.old.rows self.new.rows) }
        ensures none_left { (other : ℕ) → OnOk result (IsLeft self.new.rows other block → ⊥) }
        ensures nodes { self.new.nodes ≡ self.old.nodes }
    {
        for place in 0..self.rows.at(block).len() {
            let session = self.rows.at(block)[place].session;
            self.grant(session, block)?;
        }
        Ok(())
    }

    /// Wants a block for a session.
    fn ask(&mut self, session: u64, block: u64, mode: Mode) -> Result<(), OutOfMemory>
        ensures stand { RowsStand self.old.rows → OnOk result (RowsStand self.new.rows) }
        ensures holds { OnOk result (KeepsOthers session block (hold_in self.old.rows) (hold_in self.new.rows)) }
        ensures floor { (at : ℕ) → OnOk result (floor_in self.new.rows at ≡ floor_in self.old.rows at) }
        ensures here { OnOk result ((want_in self.new.rows session block ≡ Some mode) ⊎ IsSomeAnd (hold_in self.new.rows session block) (λ held. held.0 ≡ mode)) }
        ensures wants { (other at : ℕ) → (other ≢ session) ⊎ (at ≢ block) → OnOk result (want_in self.new.rows other at ≡ want_in self.old.rows other at) }
        ensures answered { OnOk result (IsAnswered session block mode self.old.rows self.new.rows) }
        ensures others { (other at : ℕ) → (other ≢ session) ⊎ (at ≢ block) → OnOk result (IsAlike self.old.rows self.new.rows other at) }
        ensures lets { (other : Mode) → OnOk result (AllLet session block other self.new.rows → AllLet session block other self.old.rows) }
        ensures alike { OnOk result (AlikeBut block self.old.rows self.new.rows) }
        ensures nodes { self.new.nodes ≡ self.old.nodes }
    {
        let row = row_of(&self.rows, session, block);
        let free = is_free(&self.rows, session, block, mode);
        let index = floor_of(&self.rows, block);
        self.rows.put(Row {
            mode,
            index,
            is_held: free,
            is_wanted: !free,
            ..row
        })?;
        Ok(())
    }

    /// Gives up a block that a session holds.
    fn let_go(&mut self, session: u64, block: u64, index: u64) -> Result<(), OutOfMemory>
        requires { IsSome (hold_in self.old.rows session block) }
        ensures stand { RowsStand self.old.rows → OnOk result (RowsStand self.new.rows) }
        ensures holds { OnOk result (KeepsOthers session block (hold_in self.old.rows) (hold_in self.new.rows)) }
        ensures floor { (at : ℕ) → OnOk result (floor_in self.old.rows at ≤ floor_in self.new.rows at) }
        ensures given { (at : ℕ) → hold_in self.old.rows session block ≡ Some (Exclusive, at) → OnOk result (index ≤ floor_in self.new.rows block) }
        ensures here { OnOk result ((want_in self.new.rows session block ≡ None) × (hold_in self.new.rows session block ≡ None)) }
        ensures others { (other at : ℕ) → (other ≢ session) ⊎ (at ≢ block) → OnOk result (IsAlike self.old.rows self.new.rows other at) }
        ensures wants { (other at : ℕ) → OnOk result ((want_in self.new.rows other at ≡ None) ⊎ (want_in self.new.rows other at ≡ want_in self.old.rows other at)) }
        ensures alike { OnOk result (AlikeBut block self.old.rows self.new.rows) }
        ensures nodes { self.new.nodes ≡ self.old.nodes }
    {
        let row = row_of(&self.rows, session, block);
        let given = given_after(&row, index);
        self.rows.put(Row {
            is_held: false,
            is_wanted: false,
            given,
            ..row
        })?;
        Ok(())
    }
}

impl Owners for PlainOwners {
    ghost use Rattle.std.specs.Prelude.{false, None};
    ghost use Rattle.std.proofs.Common.{sym, subst};
    ghost use Rattle.bx_facts.specs.Chains.{last};
    ghost use Rattle.bx_facts.specs.Holds.{hold_of};
    ghost use Rattle.bx_plain.specs.Asks.{asks_of};
    ghost use Rattle.bx_plain.specs.Fits.{Fits, end_in, own_in};
    ghost use Rattle.bx_plain.specs.Laws.{begins_end, fits_fewer, fits_grown, fits_leased, fits_new, has_end, has_none, held_apart, held_reaches, last_place, lives, opened, same_hold, zero_least};

    ghost is_separate = { ⊥ };

    ghost by_boot = { false };

    ghost is_for = { λ o nodes s. (nodes ≡ o.nodes) × IsPlainState o.nodes s };

    ghost nodes = { λ o. o.nodes };

    ghost is_new = { λ o. o.rows ≡ [] };

    ghost own = { λ o node. own_in o.nodes node };

    ghost end_of = { λ o node. end_in o.nodes node };

    ghost hold = { λ o node block. hold_of (own_in o.nodes node) (hold_in o.rows) block };

    ghost request = { λ o node block. want_in o.rows (node + 1) block };

    ghost asks = { λ o node. asks_of (own_in o.nodes node) o.rows o.nodes };

    ghost is_spent = { λ o node. ⊥ };

    ghost keeps = { λ o past. Fits o.nodes o.rows past };

    ghost hands = { λ o known at input change. change ≡ None };

    ghost grants = { λ o node block mode new. Grants (node + 1) block o.rows new.rows × IsAnswered (node + 1) block mode o.rows new.rows };

    ghost passes_on = { λ o node block new. Grants (node + 1) block o.rows new.rows × IsGone new.rows (node + 1) block };

    fn session(&self, node: u32) -> Option<u64> {
        if node < self.nodes {
            Some(u64::from(node) + 1)
        } else {
            None
        }
    }

    fn lease(&self, node: u32) -> Option<u64> {
        if node < self.nodes { Some(NEVER) } else { None }
    }

    fn holds(&self, node: u32, block: u64) -> Option<(Mode, u64)> {
        match self.session(node) {
            Some(session) => return hold_at(&self.rows, session, block),
            None => return None,
        }
    }

    fn wanted(&self, node: u32, block: u64) -> Option<Mode> {
        want_at(&self.rows, u64::from(node) + 1, block)
    }

    fn asked(&self, node: u32) -> Option<(u64, u64)> {
        match self.session(node) {
            Some(session) => return first_asked(&self.rows, session, self.nodes),
            None => return None,
        }
    }

    fn want(
        &mut self,
        node: u32,
        block: u64,
        mode: Mode,
        _out: &mut Outbox,
    ) -> Result<(), OutOfMemory> {
        self.ask(u64::from(node) + 1, block, mode)?;
        self.grant_waiting(block)?;
        Ok(())
    }

    fn give_up(
        &mut self,
        node: u32,
        block: u64,
        index: u64,
        _out: &mut Outbox,
    ) -> Result<(), OutOfMemory> {
        self.let_go(u64::from(node) + 1, block, index)?;
        self.grant_waiting(block)?;
        Ok(())
    }

    fn take(
        &mut self,
        _known: &GlobalState,
        _at: Actor,
        _input: &Input,
        _out: &mut Outbox,
    ) -> Result<Option<Change>, OutOfMemory> {
        Ok(None)
    }

    fn crash(&mut self, _who: Actor) {}

    fn restart(&mut self, _who: Actor, _boot: u64, _reading: u64) {}

    ghost held = { λ o past node block fits. same_hold o.rows past.holding (own_in o.nodes node) block fits.holds };

    ghost ends = { λ o past node session fits own. has_end o.nodes node session own };

    ghost ends_none = { λ o past node fits none. has_none o.nodes node none };

    ghost leases = { λ o past node session end fits own is. fits_leased o.nodes o.rows past node session end fits own };

    ghost lives = { λ o past session end fits has later. lives o.nodes (last past.told.chain) session (fits.states (last past.told.chain) (last_place past.told.chain)) (fits.leases session end has) };

    ghost apart = { λ o past session other block hold other_hold fits row other_row ne held other_held. held_apart o.nodes o.rows past session other block hold other_hold fits (λ same. ne (sym same)) held other_held };

    ghost alone = { λ o past session other block hold fits live row held. subst (λ (n : ℕ). n ≤ other) (sym fits.oldest_is) (zero_least other) };

    ghost reaches = { λ o past session block hold fits live held. held_reaches o.nodes o.rows past session block hold fits held };

    ghost was_opened = { λ o past node session fits is. opened o.nodes node session (last past.told.chain) (fits.states (last past.told.chain) (last_place past.told.chain)) is };

    ghost grows = { λ o past change fits legal own. fits_grown o.nodes o.rows past change fits legal own };

    ghost loses = { λ o past letters fits fewer. fits_fewer o.nodes o.rows past letters fits };

    ghost begins_own = { λ o nodes s node new is there. sym (is.1.found node) };

    ghost begins_end = { λ o nodes s node session new is own. begins_end o.nodes node session s is.1 own };

    ghost begins = { λ o nodes s new is allowed. fits_new o.nodes nodes o.rows s new is };

    ghost finds = { λ o nodes made s boot new separate is none allowed. absurd separate };

    ghost has_nodes = { λ o nodes_of s is. sym is.0 };
}
