//! A write whose runs are on several devices, said to one of them.

ghost use Rattle.std.specs.Prelude.{◌≡◌, ◌++◌, ◌∷◌, [], IfOk, OnErr, OnOk, length};
ghost use Rattle.std.specs.List.{flat_map};
ghost use Rattle.bx_mirror_packets.specs.DeviceMessages.{letter_with, run_text, runs_text, write_text};
ghost use Rattle.bx_mirror_packets.specs.Parting.{runs_on, write_of};
ghost use Rattle.bx_mirror_packets.specs.declared.message.DeviceMessage.TheVariants.{Write};

use crate::parts::Head;
use crate::writing::{push_head, push_run};
use bx_base::{Actor, OutOfMemory, Raw, push_u32, push_u64};
use bx_post::Outbox;
use bx_records::{Run, Runs};
use std::alloc::Global;

/// The bytes of a sector.
const SECTOR: usize = 512;

/// The greatest number that a packet's count can have.
const MOST: usize = u32::MAX as usize;

/// A write to one device, without its runs.
#[derive(Clone, Copy)]
pub struct WriteHead {
    /// The kind number of the packet, 14 to 18.
    pub kind: u8,
    /// The session that writes.
    pub session: u64,
    /// The device, from 0 on.
    pub device: u32,
    /// The epoch in which it is written.
    pub epoch: u64,
    /// The number of the write.
    pub sequence: u64,
    /// The last reading at which it is taken, in milliseconds.
    pub until: u64,
}

/// Puts the letter of a write to one device into the box: it has those of the runs that are on the device, and is made of them where they
/// stand. Where memory runs out, nothing changes; a packet with more than `u32::MAX` runs, or sectors in one of them, is one for which no memory is left.
pub fn send_write(
    alloc: Global,
    from: Actor,
    to: Actor,
    head: &WriteHead,
    runs: &Runs,
    out: &mut Outbox,
) -> Result<(), OutOfMemory>
    ensures ok { OnOk result (out.new ≡ out.old ++ letter_with from to (Write (write_of head.now runs.now.1)) ∷ []) }
    ensures err { OnErr result (out.new ≡ out.old) }
{
    let body = body_of(alloc, head, runs)?;
    out.push(from, to, head.kind, body)
}

/// The body of a write to one device.
fn body_of(alloc: Global, head: &WriteHead, runs: &Runs) -> Result<Raw, OutOfMemory>
    ensures { IfOk result (λ raw. raw ≡ write_text (write_of head.now runs.now.1)) }
{
    let mut out = Vec::new(alloc);
    let front = Head {
        session: head.session,
        device: head.device,
        epoch: head.epoch,
        number: head.sequence,
    };
    push_head(&mut out, front)?;
    push_u64(&mut out, head.until)?;
    push_runs_on(&mut out, head.device, runs)?;
    Ok(Raw::from(out))
}

/// Puts the number of the runs that are on a device and these runs at the end.
fn push_runs_on(out: &mut Vec<u8>, device: u32, runs: &Runs) -> Result<(), OutOfMemory>
    ensures { OnOk result (out.new.items ≡ out.old.items ++ runs_text (runs_on device runs.now.1)) }
{
    let count = count_on(device, runs);
    if count > MOST {
        return Err(OutOfMemory);
    }
    push_u32(out, count as u32)?;
    for i in 0..runs.len() {
        let Some(run) = runs.get(i) else {
            return Ok(());
        };
        push_if_on(out, device, run)?;
    }
    Ok(())
}

/// How many of the runs are on a device.
fn count_on(device: u32, runs: &Runs) -> usize
    ensures { result ≡ length (runs_on device runs.now.1) }
{
    let mut count = 0;
    for i in 0..runs.len() {
        let Some(run) = runs.get(i) else {
            return count;
        };
        if run.device == device {
            count += 1;
        }
    }
    count
}

/// Puts a run at the end, where it is on a device.
fn push_if_on(out: &mut Vec<u8>, device: u32, run: &Run) -> Result<(), OutOfMemory>
    ensures { OnOk result (out.new.items ≡ out.old.items ++ flat_map run_text (runs_on device (run.now ∷ []))) }
{
    if run.device != device {
        return Ok(());
    }
    if run.bytes.bytes().len() / SECTOR > MOST {
        return Err(OutOfMemory);
    }
    push_run(out, run)
}
