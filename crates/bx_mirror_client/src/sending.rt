//! A write that is out, and which members are still to be told of it.

ghost use Rattle.std.specs.Prelude.{◌≡◌, ◌^◌, ◌<◌};
ghost use Rattle.bx_mirror_client.specs.Sends.{has_runs, is_acked, is_missing, member_at, next_number, write_kind, writes_to};

use bx_base::List;
use bx_records::Runs;
use bx_rows::DeviceRow;

/// A member has made a write sure, in an epoch of its device.
#[derive(Clone, Copy, PartialEq, Eq)]
pub struct Ack {
    /// The member.
    pub member: u32,
    /// The epoch.
    pub epoch: u64,
}

/// A write that is out.
#[derive(Drop)]
pub struct Sending {
    /// The session that writes.
    pub session: u64,
    /// Its number, from 1 on; 0 where no number was left: then nobody is told of it.
    pub sequence: u64,
    /// The last reading at which a member takes it, in milliseconds.
    pub until: u64,
    /// What is written. Each letter is made of these bytes where they stand.
    pub runs: Runs,
    /// What was acknowledged, each once.
    pub acks: List<Ack>,
}

/// The number behind one; 0 where none is left.
pub(crate) fn next_number(number: u64) -> u64
    ensures { result ≡ next_number number }
{
    if number == u64::MAX {
        return 0;
    }
    number + 1
}

/// The kind that the packets of runs have: their own, where it is a write's, else that of a body.
pub(crate) fn write_kind(kind: u8) -> u8
    ensures { result ≡ write_kind kind }
{
    match kind {
        14..=18 => kind,
        _ => 14,
    }
}

/// The number of a member of a device: B (`second`) or A.
pub(crate) fn member_at(device: u32, second: bool) -> u32
    requires { device < 2 ^ 31 }
    ensures { result ≡ member_at device second }
{
    if second {
        return 2 * device + 1;
    }
    2 * device
}

/// Whether writes go to a member of a device: B (`second`) or A.
pub(crate) fn writes_to(row: &DeviceRow, second: bool) -> bool
    ensures { result ≡ writes_to row.now.mode second }
{
    row.writes(second)
}

/// Whether a member has acknowledged in an epoch.
pub(crate) fn is_acked(acks: &[Ack], member: u32, epoch: u64) -> bool
    ensures { result ≡ is_acked acks.now member epoch }
{
    acks.iter()
        .any(|ack| ack.member == member && ack.epoch == epoch)
}

/// Whether a member of a device is written and hasn't acknowledged in the row's epoch.
pub(crate) fn is_missing(acks: &[Ack], device: u32, row: &DeviceRow, second: bool) -> bool
    requires { device < 2 ^ 31 }
    ensures { result ≡ is_missing acks.now device row.now second }
{
    writes_to(row, second) && !is_acked(acks, member_at(device, second), row.epoch)
}

/// Whether one of the runs is on a device.
pub(crate) fn has_runs(device: u32, runs: &Runs) -> bool
    ensures { result ≡ has_runs device runs.now.1 }
{
    for i in 0..runs.len() {
        let Some(run) = runs.get(i) else {
            return false;
        };
        if run.device == device {
            return true;
        }
    }
    false
}
