//! The state.

ghost use Rattle.std.specs.Prelude.{◌≡◌, IfOk};
ghost use Rattle.bx_global.specs.Allowed.{IsChange};
ghost use Rattle.bx_global.specs.Table.{IsAnswer};

use crate::change::Change;
use crate::changes::{claim, close, expire, open, renew, shift, take};
use bx_rows::base::{List, OutOfMemory};
use bx_rows::{DeviceRow, SessionRow};
use std::alloc::Global;

/// The state that the cluster decides on.
#[derive(Drop)]
pub struct GlobalState {
    /// How many changes led to it, from 1 on.
    pub index: u64,
    /// The lock server that is master, below 2.
    pub master: u32,
    /// The master's boot.
    pub master_boot: u64,
    /// The master's term.
    pub term: u64,
    /// When the term ends, in milliseconds.
    pub term_end: u64,
    /// The number of the next session that is opened.
    pub next_session: u64,
    /// The sessions, at most 8, in the order of their numbers.
    pub sessions: List<SessionRow>,
    /// The mirrored devices, 1 to 4.
    pub devices: List<DeviceRow>,
}

impl GlobalState {
    /// A copy.
    pub fn copy(&self, alloc: Global) -> Result<GlobalState, OutOfMemory>
        ensures { IfOk result (λ new. new ≡ self.now) }
    {
        Ok(GlobalState {
            sessions: List::of(alloc, self.sessions.items())?,
            devices: List::of(alloc, self.devices.items())?,
            index: self.index,
            master: self.master,
            master_boot: self.master_boot,
            term: self.term,
            term_end: self.term_end,
            next_session: self.next_session,
        })
    }

    /// The state after a change; `None` exactly where the change isn't legal. Every change has numbers that a state may
    /// have, so a state that meets the conditions is followed by one that meets them (`stays_allowed`).
    pub fn changed(
        &self,
        alloc: Global,
        change: &Change,
    ) -> Result<Option<GlobalState>, OutOfMemory>
        ensures answer { IfOk result (IsAnswer self.now change.now) }
        ensures numbers { IsChange change.now }
    {
        match *change {
            Change::Renew { by, boot, reading } => renew(alloc, self, by, boot, reading),
            Change::Take { by, boot, reading } => take(alloc, self, by, boot, reading),
            Change::Open {
                node,
                boot,
                reading,
            } => open(alloc, self, node, boot, reading),
            Change::Expire {
                session,
                term,
                reading,
            } => expire(alloc, self, session, term, reading),
            Change::Claim { dead, by } => claim(alloc, self, dead, by),
            Change::Close { dead, by } => close(alloc, self, dead, by),
            Change::Shift {
                device,
                epoch,
                mode,
                second,
                boot,
            } => { shift(alloc, self, device, epoch, mode, second, boot) }
        }
    }
}
