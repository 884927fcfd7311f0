//! Writing what is said.

ghost use Rattle.std.specs.Prelude.{◌≡◌, ◌++◌, ◌/◌, ◌%◌, ◌^◌, ◌<◌, IfOk, OnOk, length};
ghost use Rattle.std.specs.List.{AllByRecursion};
ghost use Rattle.bx_mirror_packets.specs.DeviceMessages.{HasCounts, HasSectors, body_text, copy_text, data_text, head_text, piece_text, read_text, run_text, runs_text, write_text};

use crate::message::{CopyBody, DataBody, DeviceMessage, ReadBody, WriteBody};
use crate::parts::{Head, Piece};
use bx_base::{OutOfMemory, Raw, push, push_u32, push_u64};
use bx_records::{Run, Runs};
use bx_rows::push_pair;
use std::alloc::Global;

/// The bytes of a sector.
const SECTOR: usize = 512;

impl DeviceMessage {
    /// The body.
    pub fn write(&self, alloc: Global) -> Result<Raw, OutOfMemory>
        requires { HasCounts self.now }
        ensures { IfOk result (λ raw. raw ≡ body_text self.now) }
    {
        let mut out = Vec::new(alloc);
        push_message(&mut out, self)?;
        Ok(Raw::from(out))
    }
}

/// Puts a body at the end.
fn push_message(out: &mut Vec<u8>, message: &DeviceMessage) -> Result<(), OutOfMemory>
    requires { HasCounts message.now }
    ensures { OnOk result (out.new.items ≡ out.old.items ++ body_text message.now) }
{
    match message {
        DeviceMessage::Write(write) => push_write(out, write),
        DeviceMessage::Wrote(wrote) => {
            let head = Head::of(wrote.session, wrote.device, wrote.epoch, wrote.sequence);
            push_head(out, head)
        }
        DeviceMessage::Read(read) => push_read(out, read),
        DeviceMessage::Data(data) => push_data(out, data),
        DeviceMessage::Copy(copy) => push_copy(out, copy),
        DeviceMessage::Copied(copied) => {
            let piece = Piece {
                device: copied.device,
                epoch: copied.epoch,
                place: copied.place,
            };
            push_piece(out, piece)
        }
        DeviceMessage::Alive => Ok(()),
    }
}

/// Puts a head at the end.
pub(crate) fn push_head(out: &mut Vec<u8>, head: Head) -> Result<(), OutOfMemory>
    ensures { OnOk result (out.new.items ≡ out.old.items ++ head_text head.session head.device head.epoch head.number) }
{
    push_u64(out, head.session)?;
    push_pair(out, head.device, head.epoch)?;
    push_u64(out, head.number)
}

/// Puts what a piece of a copy begins with at the end.
fn push_piece(out: &mut Vec<u8>, piece: Piece) -> Result<(), OutOfMemory>
    ensures { OnOk result (out.new.items ≡ out.old.items ++ piece_text piece.device piece.epoch piece.place) }
{
    push_pair(out, piece.device, piece.epoch)?;
    push_u64(out, piece.place)
}

/// Puts a write at the end.
fn push_write(out: &mut Vec<u8>, write: &WriteBody) -> Result<(), OutOfMemory>
    requires count { length write.now.runs.1 < 2 ^ 32 }
    requires sectors { AllByRecursion HasSectors write.now.runs.1 }
    ensures { OnOk result (out.new.items ≡ out.old.items ++ write_text write.now) }
{
    let head = Head::of(write.session, write.device, write.epoch, write.sequence);
    push_head(out, head)?;
    push_u64(out, write.until)?;
    push_runs(out, &write.runs)
}

/// Puts the number of runs and the runs at the end.
fn push_runs(out: &mut Vec<u8>, runs: &Runs) -> Result<(), OutOfMemory>
    requires count { length runs.now.1 < 2 ^ 32 }
    requires sectors { AllByRecursion HasSectors runs.now.1 }
    ensures { OnOk result (out.new.items ≡ out.old.items ++ runs_text runs.now.1) }
{
    push_u32(out, runs.len() as u32)?;
    for i in 0..runs.len() {
        let Some(run) = runs.get(i) else {
            return Ok(());
        };
        push_run(out, run)?;
    }
    Ok(())
}

/// Puts a run at the end.
pub(crate) fn push_run(out: &mut Vec<u8>, run: &Run) -> Result<(), OutOfMemory>
    requires { HasSectors run.now }
    ensures { OnOk result (out.new.items ≡ out.old.items ++ run_text run.now) }
{
    let bytes = run.bytes.bytes();
    push_u64(out, run.place)?;
    push_u32(out, (bytes.len() / SECTOR) as u32)?;
    push(out, bytes)
}

/// Puts a read at the end.
fn push_read(out: &mut Vec<u8>, read: &ReadBody) -> Result<(), OutOfMemory>
    ensures { OnOk result (out.new.items ≡ out.old.items ++ read_text read.now) }
{
    let head = Head::of(read.session, read.device, read.epoch, read.tag);
    push_head(out, head)?;
    push_u64(out, read.place)?;
    push_u32(out, read.sectors)
}

/// Puts an answer to a read at the end.
fn push_data(out: &mut Vec<u8>, answer: &DataBody) -> Result<(), OutOfMemory>
    ensures { OnOk result (out.new.items ≡ out.old.items ++ data_text answer.now) }
{
    let head = Head::of(answer.session, answer.device, answer.epoch, answer.tag);
    push_head(out, head)?;
    push(out, answer.bytes.bytes())
}

/// Puts a piece of a copy at the end.
fn push_copy(out: &mut Vec<u8>, copy: &CopyBody) -> Result<(), OutOfMemory>
    ensures { OnOk result (out.new.items ≡ out.old.items ++ copy_text copy.now) }
{
    let piece = Piece {
        device: copy.device,
        epoch: copy.epoch,
        place: copy.place,
    };
    push_piece(out, piece)?;
    push(out, copy.bytes.bytes())
}
