//! Letters of a node to members.

ghost use Rattle.std.specs.Prelude.{◌≡◌, ◌^◌, ◌<◌, ◌≤◌, ◌++◌, OnOk, Some, length};
ghost use Rattle.bx_mirror_client.specs.Letters.{is_new_epoch, letters_from, read_in, read_letters, reads_second, to_device, to_member, to_reader, write_letters};

use crate::asking::{Asking, is_awaited};
use crate::sending::{Sending, has_runs, is_missing, member_at, write_kind};
use bx_base::{Actor, OutOfMemory};
use bx_facts::Outbox;
use bx_mirror_packets::{DeviceMessage, ReadBody, WriteHead, send, send_write};
use bx_rows::DeviceRow;
use std::alloc::Global;

/// Whether the epoch of a device isn't what it was in these rows, or it isn't in them.
pub(crate) fn is_new_epoch(before: &[DeviceRow], device: u32, row: &DeviceRow) -> bool
    ensures { result ≡ is_new_epoch before.now device row.now }
{
    match before.get(device as usize) {
        None => true,
        Some(known) => known.epoch != row.epoch,
    }
}

/// Whether reads go to member B of a device.
fn reads_second(row: &DeviceRow) -> bool
    ensures { result ≡ reads_second row.now.mode }
{
    row.reads_second()
}

/// A node that sends.
#[derive(Drop)]
pub(crate) struct Sender {
    /// In which letters are made.
    pub(crate) alloc: Global,
    /// The node.
    pub(crate) node: u32,
}

impl Sender {
    /// Tells a member of a device of a write, B (`second`) or A, where it is missing.
    fn tell_member(
        &self,
        sending: &Sending,
        device: u32,
        row: &DeviceRow,
        second: bool,
        out: &mut Outbox,
    ) -> Result<(), OutOfMemory>
        requires { device < 2 ^ 31 }
        ensures { OnOk result (out.new ≡ out.old ++ to_member self.now.node sending.now device row.now second) }
    {
        if !is_missing(sending.acks.items(), device, row, second) {
            return Ok(());
        }
        let head = WriteHead {
            kind: write_kind(sending.runs.kind()),
            session: sending.session,
            device,
            epoch: row.epoch,
            sequence: sending.sequence,
            until: sending.until,
        };
        let (from, to) = (
            Actor::Node(self.node),
            Actor::Member(member_at(device, second)),
        );
        send_write(self.alloc, from, to, &head, &sending.runs, out)
    }

    /// Tells the members of a device of a write, where it is written there and the epoch isn't that of the rows before.
    fn tell_device(
        &self,
        sending: &Sending,
        before: &[DeviceRow],
        device: u32,
        row: &DeviceRow,
        out: &mut Outbox,
    ) -> Result<(), OutOfMemory>
        requires { device < 2 ^ 31 }
        ensures { OnOk result (out.new ≡ out.old ++ to_device before.now self.now.node sending.now device row.now) }
    {
        if !is_new_epoch(before, device, row) || !has_runs(device, &sending.runs) {
            return Ok(());
        }
        self.tell_member(sending, device, row, false, out)?;
        self.tell_member(sending, device, row, true, out)
    }

    /// Tells the members that a write misses, of the devices whose epochs aren't those of the rows before.
    fn tell_all(
        &self,
        sending: &Sending,
        before: &[DeviceRow],
        rows: &[DeviceRow],
        out: &mut Outbox,
    ) -> Result<(), OutOfMemory>
        requires { length rows.now ≤ 4 }
        ensures { OnOk result (out.new ≡ out.old ++ letters_from before.now self.now.node sending.now 0 rows.now) }
    {
        for device in 0..rows.len() {
            self.tell_device(sending, before, device as u32, &rows[device], out)?;
        }
        Ok(())
    }

    /// Sends the letters of the write that is out, to devices whose epochs aren't those of the rows before.
    pub(crate) fn send_writes(
        &self,
        sending: &Option<Sending>,
        before: &[DeviceRow],
        rows: &[DeviceRow],
        out: &mut Outbox,
    ) -> Result<(), OutOfMemory>
        requires { length rows.now ≤ 4 }
        ensures { OnOk result (out.new ≡ out.old ++ write_letters before.now self.now.node sending.now rows.now) }
    {
        match sending {
            Some(sending) if sending.sequence != 0 => self.tell_all(sending, before, rows, out),
            _ => Ok(()),
        }
    }

    /// Sends the letter of the read that is out, where the epoch of its device isn't that of the rows before.
    pub(crate) fn send_reads(
        &self,
        asking: &Option<Asking>,
        before: &[DeviceRow],
        rows: &[DeviceRow],
        out: &mut Outbox,
    ) -> Result<(), OutOfMemory>
        requires { length rows.now ≤ 4 }
        ensures { OnOk result (out.new ≡ out.old ++ read_letters before.now self.now.node asking.now rows.now) }
    {
        let Some(asking) = asking else {
            return Ok(());
        };
        match rows.get(asking.device as usize) {
            None => Ok(()),
            Some(row) => self.ask_if_new(asking, before, row, out),
        }
    }

    /// Asks the member that reads go to, where the epoch isn't that of the rows before and an answer may come.
    fn ask_if_new(
        &self,
        asking: &Asking,
        before: &[DeviceRow],
        row: &DeviceRow,
        out: &mut Outbox,
    ) -> Result<(), OutOfMemory>
        requires { asking.now.device < 2 ^ 31 }
        ensures { OnOk result (out.new ≡ out.old ++ read_in before.now self.now.node asking.now (Some row.now)) }
    {
        if is_new_epoch(before, asking.device, row) && is_awaited(asking) {
            return self.ask(asking, row, out);
        }
        Ok(())
    }

    /// Asks the member that reads go to.
    fn ask(&self, asking: &Asking, row: &DeviceRow, out: &mut Outbox) -> Result<(), OutOfMemory>
        requires { asking.now.device < 2 ^ 31 }
        ensures { OnOk result (out.new ≡ out.old ++ to_reader self.now.node asking.now row.now) }
    {
        let to = member_at(asking.device, reads_second(row));
        let read = DeviceMessage::Read(ReadBody {
            session: asking.session,
            device: asking.device,
            epoch: row.epoch,
            tag: asking.tag,
            place: asking.place,
            sectors: asking.sectors,
        });
        send(
            self.alloc,
            Actor::Node(self.node),
            Actor::Member(to),
            &read,
            out,
        )
    }
}
