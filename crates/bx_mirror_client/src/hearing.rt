//! A stream hears what members say.

ghost use Rattle.std.specs.Prelude.{◌≡◌, ◌≤◌, OnOk, length};
ghost use Rattle.bx_mirror_client.specs.Events.{asks_answered, counts, hear, out_acked, with_ack};

use crate::asking::{Asking, fits, is_awaited};
use crate::client::MirrorClient;
use crate::done::is_done;
use crate::sending::{Ack, Sending, has_runs, is_acked};
use bx_base::{Actor, OutOfMemory};
use bx_mirror_packets::{DataBody, DeviceMessage, WroteBody};
use bx_rows::DeviceRow;

/// Whether an acknowledgement of a member is one of this write, of a device that it writes to.
fn counts(sending: &Sending, member: u32, wrote: &WroteBody) -> bool
    ensures { result ≡ counts sending.now member wrote.now }
{
    wrote.session == sending.session
        && wrote.sequence == sending.sequence
        && sending.sequence != 0
        && member / 2 == wrote.device
        && has_runs(wrote.device, &sending.runs)
}

/// Notes an acknowledgement, where it counts. A write that is done by it isn't out any more.
fn note_wrote(
    out: &mut Option<Sending>,
    rows: &[DeviceRow],
    member: u32,
    wrote: &WroteBody,
) -> Result<(), OutOfMemory>
    requires { length rows.now ≤ 4 }
    ensures { OnOk result (out.new ≡ out_acked member wrote.now rows.now out.old) }
{
    let Some(sending) = out else {
        return Ok(());
    };
    if !counts(sending, member, wrote) {
        return Ok(());
    }
    note_ack(sending, member, wrote.epoch)?;
    if is_done(sending, rows) {
        *out = None;
    }
    Ok(())
}

/// Notes that a member has acknowledged in an epoch, once.
fn note_ack(sending: &mut Sending, member: u32, epoch: u64) -> Result<(), OutOfMemory>
    ensures { OnOk result (sending.new ≡ with_ack member epoch sending.old) }
{
    if is_acked(sending.acks.items(), member, epoch) {
        return Ok(());
    }
    sending.acks.push(Ack { member, epoch })
}

/// Takes an answer to the read that is out, where it fits and none came before.
fn take_data(asks: &mut Option<Asking>, rows: &[DeviceRow], told: DataBody)
    ensures { asks.new ≡ asks_answered told rows.now asks.old }
{
    let Some(asking) = asks else {
        return;
    };
    if is_awaited(asking) && fits(rows, asking, &told) {
        asking.answer = Some(told.bytes);
    }
}

impl MirrorClient {
    /// Hears what a machine says.
    pub(crate) fn hear(&mut self, from: Actor, message: DeviceMessage) -> Result<(), OutOfMemory>
        ensures { OnOk result (self.new ≡ hear from message self.old) }
    {
        let Actor::Member(member) = from else {
            return Ok(());
        };
        match message {
            DeviceMessage::Wrote(wrote) => {
                note_wrote(&mut self.out, self.rows.items(), member, &wrote)
            }
            DeviceMessage::Data(told) => {
                take_data(&mut self.asks, self.rows.items(), told);
                Ok(())
            }
            _ => Ok(()),
        }
    }
}
