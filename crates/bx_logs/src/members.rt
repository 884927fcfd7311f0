//! The members that the devices of a volume are read off.

ghost use Rattle.std.specs.Prelude.{◌≡◌, ◌<◌, length};
ghost use Rattle.bx_logs.specs.Members.{disk_of, member_in};

use bx_homes::member_disk;

/// How many devices and areas a volume has, and which member each device is read off: B, or else A.
#[derive(Clone, Copy)]
pub struct Members {
    /// How many devices, 1 to 4.
    pub devices: u32,
    /// How many areas, 1 to 64.
    pub areas: u16,
    /// For each device whether it is read off member B. Those past the volume's are false.
    pub seconds: [bool; 4],
}

impl Members {
    /// Whether a device is read off member B.
    pub fn reads_second(&self, device: u32) -> bool
        requires device { device < 4 }
        requires count { length self.now.seconds ≡ 4 }
        ensures { result ≡ member_in self.now.seconds device }
    {
        self.seconds[device as usize]
    }

    /// The disk of the member that a device is read off.
    pub(crate) fn disk(&self, device: u32) -> u32
        requires device { device < 4 }
        requires count { length self.now.seconds ≡ 4 }
        ensures { result ≡ disk_of self.now device }
    {
        member_disk(device, self.reads_second(device))
    }
}
