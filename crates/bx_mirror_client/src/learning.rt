//! A stream learns a state.

ghost use Rattle.std.specs.Prelude.{◌≡◌, ◌≤◌, ◌++◌, IfOk, OnOk, length};
ghost use Rattle.bx_facts.specs.Chains.{session_of};
ghost use Rattle.bx_mirror_client.specs.Letters.{is_new_for};
ghost use Rattle.bx_mirror_client.specs.Streams.{asks_in, is_session, learned, letters_since, out_in};

use crate::asking::Asking;
use crate::client::MirrorClient;
use crate::done::is_done;
use crate::letters::is_new_epoch;
use crate::sending::Sending;
use bx_base::{List, OutOfMemory};
use bx_facts::Outbox;
use bx_global::GlobalState;
use bx_rows::{DeviceRow, find_live};
use std::mem;

/// The live session of a node and boot.
pub(crate) fn own_session(known: &GlobalState, node: u32, boot: u64) -> Option<u64>
    ensures { result ≡ session_of known.now node boot }
{
    match find_live(known.sessions.items(), node, boot) {
        None => None,
        Some(row) => Some(row.number),
    }
}

/// Whether a session is a node's own.
fn is_session(own: Option<u64>, session: u64) -> bool
    ensures { result ≡ is_session own session }
{
    match own {
        None => false,
        Some(own) => own == session,
    }
}

/// Whether a device has an epoch that it hadn't before.
fn is_new_for(before: &[DeviceRow], rows: &[DeviceRow], device: u32) -> bool
    ensures { result ≡ is_new_for before.now rows.now device }
{
    match rows.get(device as usize) {
        None => false,
        Some(row) => is_new_epoch(before, device, row),
    }
}

/// Drops the write that is out, where its session ended or it is done with these rows.
fn keep_out(out: &mut Option<Sending>, session: Option<u64>, rows: &[DeviceRow])
    requires { length rows.now ≤ 4 }
    ensures { out.new ≡ out_in session rows.now out.old }
{
    let Some(sending) = out else {
        return;
    };
    if !is_session(session, sending.session) || is_done(sending, rows) {
        *out = None;
    }
}

/// Drops the read that is out, where its session ended. In another epoch of its device an answer that came before doesn't count.
fn keep_asks(
    asks: &mut Option<Asking>,
    session: Option<u64>,
    before: &[DeviceRow],
    rows: &[DeviceRow],
)
    ensures { asks.new ≡ asks_in session before.now rows.now asks.old }
{
    let Some(asking) = asks else {
        return;
    };
    if !is_session(session, asking.session) {
        *asks = None;
        return;
    }
    if is_new_for(before, rows, asking.device) {
        asking.answer = None;
    }
}

impl MirrorClient {
    /// Learns a state, and tells members of what is out in epochs that are new.
    pub(crate) fn learn(&mut self, known: &GlobalState, out: &mut Outbox) -> Result<(), OutOfMemory>
        requires { length known.now.devices ≤ 4 }
        ensures learns { OnOk result (self.new ≡ learned known.now self.old) }
        ensures sends { OnOk result (out.new ≡ out.old ++ letters_since self.old.rows (learned known.now self.old)) }
    {
        let before = self.follow(known)?;
        self.send_since(before.items(), out)
    }

    /// Goes on with what stands in a state, and hands out the rows that it knew before.
    fn follow(&mut self, known: &GlobalState) -> Result<List<DeviceRow>, OutOfMemory>
        requires { length known.now.devices ≤ 4 }
        ensures learns { OnOk result (self.new ≡ learned known.now self.old) }
        ensures before { IfOk result (λ rows. rows ≡ self.old.rows) }
    {
        let rows = List::of(self.alloc, known.devices.items())?;
        let session = own_session(known, self.node, self.boot);
        keep_out(&mut self.out, session, rows.items());
        keep_asks(&mut self.asks, session, self.rows.items(), rows.items());
        self.session = session;
        Ok(mem::replace(&mut self.rows, rows))
    }
}
