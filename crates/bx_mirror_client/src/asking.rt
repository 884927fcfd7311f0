//! A read that is out, or whose answer wasn't taken yet.

ghost use Rattle.std.specs.Prelude.{◌≡◌, slice_get};
ghost use Rattle.bx_mirror_client.specs.Asks.{answer_in, asks_left, fits, is_answer, is_awaited};

use bx_base::Raw;
use bx_mirror_packets::DataBody;
use bx_rows::DeviceRow;

/// The bytes of a sector.
const SECTOR: u64 = 512;

/// A read that is out, or whose answer wasn't taken yet.
#[derive(Drop)]
pub struct Asking {
    /// The session that reads.
    pub session: u64,
    /// Its number, from 1 on; 0 where no number was left: then it isn't sent, and nothing answers it.
    pub tag: u64,
    /// The device, from 0 on.
    pub device: u32,
    /// The first sector.
    pub place: u64,
    /// How many sectors.
    pub sectors: u32,
    /// The bytes, once they came.
    pub answer: Option<Raw>,
}

/// Whether an answer may come.
pub(crate) fn is_awaited(asking: &Asking) -> bool
    ensures { result ≡ is_awaited asking.now }
{
    asking.answer.is_none() && asking.tag != 0
}

/// Whether an answer is one to this read, in the epoch of a device's row.
fn is_answer(row: &DeviceRow, asking: &Asking, told: &DataBody) -> bool
    ensures { result ≡ is_answer row.now asking.now told.now }
{
    let sectors = asking.sectors;
    told.session == asking.session
        && told.tag == asking.tag
        && told.device == asking.device
        && told.epoch == row.epoch
        && told.bytes.bytes().len() as u64 == SECTOR * u64::from(sectors)
}

/// Whether an answer is one to this read, where its device is among these rows.
pub(crate) fn fits(rows: &[DeviceRow], asking: &Asking, told: &DataBody) -> bool
    ensures { result ≡ fits (slice_get rows.now asking.now.device) asking.now told.now }
{
    match rows.get(asking.device as usize) {
        None => false,
        Some(row) => is_answer(row, asking, told),
    }
}

/// Takes the answer out, where one came: the read is over then.
pub(crate) fn take_answer(asks: &mut Option<Asking>) -> Option<Raw>
    ensures answer { result ≡ answer_in asks.old }
    ensures left { asks.new ≡ asks_left asks.old }
{
    let Some(asking) = asks else {
        return None;
    };
    if asking.answer.is_none() {
        return None;
    }
    let answer = asking.answer.take();
    *asks = None;
    answer
}
