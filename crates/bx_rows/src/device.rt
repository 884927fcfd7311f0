//! Mirrored devices.

ghost use Rattle.std.specs.Prelude.{◌≡◌, ◌-◌, ◌^◌, ◌<◌, ◌↔◌, IsTrue};
ghost use Rattle.bx_rows.specs.Modes.{IsReadAtA, IsSource, IsWritten};
ghost use Rattle.bx_rows.specs.Rows.{shifted};

/// A mirrored device, which has the members A and B.
#[derive(Clone, Copy, PartialEq, Eq)]
pub struct DeviceRow {
    /// 0 Both, 1 OnlyA, 2 OnlyB, 3 CopyAB, 4 CopyBA.
    pub mode: u32,
    /// How often its mode was set.
    pub epoch: u64,
    /// The boot of member A.
    pub boot_a: u64,
    /// The boot of member B.
    pub boot_b: u64,
}

impl DeviceRow {
    /// Whether writes go to a member, B (`second`) or A.
    pub fn writes(&self, second: bool) -> bool
        ensures { IsTrue result ↔ IsWritten self.now.mode second }
    {
        match self.mode {
            0 => true,
            1 => !second,
            2 => second,
            _ => false,
        }
    }

    /// Whether member B, and not A, is the one that reads go to.
    pub fn reads_second(&self) -> bool
        ensures { IsTrue result ↔ (IsReadAtA self.now.mode → ⊥) }
    {
        self.mode != 0 && self.mode != 1 && self.mode != 3
    }

    /// Whether a member, B (`second`) or A, is one that an audit compares.
    pub fn is_source(&self, second: bool) -> bool
        ensures { IsTrue result ↔ IsSource self.now.mode second }
    {
        self.mode == 0 || self.reads_second() == second
    }
}

/// The row in another mode, and with another boot of member B (`second`) or A.
pub fn shifted_row(row: &DeviceRow, mode: u32, second: bool, boot: u64) -> DeviceRow
    requires { row.now.epoch < 2 ^ 64 - 1 }
    ensures { result ≡ shifted mode second boot row.now }
{
    let epoch = row.epoch + 1;
    if second {
        DeviceRow {
            mode,
            epoch,
            boot_b: boot,
            ..*row
        }
    } else {
        DeviceRow {
            mode,
            epoch,
            boot_a: boot,
            ..*row
        }
    }
}
