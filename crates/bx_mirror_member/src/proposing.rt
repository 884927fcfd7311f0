//! What a member says and proposes at a tick.

ghost use Rattle.std.specs.Prelude.{◌≡◌, ◌++◌, ◌∷◌, [], OnOk};
ghost use Rattle.bx_facts.specs.Writes.{only_other};
ghost use Rattle.bx_mirror_member.specs.Steps.{alive_letter, is_silent, may_alone, proposes, proposes_in, shift};

use crate::copies::{copy_from, is_named};
use crate::member::{Member, PARTNER};
use bx_base::OutOfMemory;
use bx_facts::Outbox;
use bx_global::Change;
use bx_mirror_packets::DeviceMessage;
use bx_rows::DeviceRow;

/// The mode in which the other member than B (`second`), or A, is alone.
fn only_other(second: bool) -> u32
    ensures { result ≡ only_other second }
{
    if second { 1 } else { 2 }
}

impl Member {
    /// A change of the mode of its device.
    pub(crate) fn shift(&self, row: &DeviceRow, mode: u32) -> Change
        ensures { result ≡ shift self.now row.now mode }
    {
        Change::Shift {
            device: self.device(),
            epoch: row.epoch,
            mode,
            second: self.is_second(),
            boot: self.boot,
        }
    }

    /// Whether it may go on alone in a row.
    fn may_alone(&self, row: &DeviceRow) -> bool
        ensures { result ≡ may_alone self.now row.now }
    {
        row.mode == 0 || row.mode == copy_from(self.is_second())
    }

    /// Whether its partner has been silent too long.
    fn suspects(&self, reading: u64) -> bool
        ensures { result ≡ is_silent self.now reading }
    {
        self.detector.suspects(PARTNER, reading)
    }

    /// What it proposes at a reading in milliseconds. It takes no memory.
    pub fn proposal(&self, reading: u64) -> Option<Change>
        ensures { result ≡ proposes_in self.now self.now.row reading }
    {
        let Some(row) = self.row else {
            return None;
        };
        self.proposal_in(&row, reading)
    }

    /// What it proposes in a row.
    fn proposal_in(&self, row: &DeviceRow, reading: u64) -> Option<Change>
        ensures { result ≡ proposes self.now row.now reading }
    {
        let second = self.is_second();
        if row.mode == only_other(second) {
            return Some(self.shift(row, copy_from(!second)));
        }
        if !is_named(self, row) {
            return Some(self.shift(row, row.mode));
        }
        if self.may_alone(row) && self.suspects(reading) {
            return Some(self.shift(row, only_other(!second)));
        }
        None
    }

    /// Tells its partner that it is up.
    pub fn say_alive(&self, out: &mut Outbox) -> Result<(), OutOfMemory>
        ensures { OnOk result (out.new ≡ out.old ++ alive_letter self.now ∷ []) }
    {
        self.say(self.partner(), &DeviceMessage::Alive, out)
    }
}
