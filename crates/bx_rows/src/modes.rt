//! The modes of a device.

ghost use Rattle.std.specs.Prelude.{◌↔◌, IsTrue};
ghost use Rattle.bx_rows.specs.Modes.{IsReachable};

/// Whether one step leads from a mode to another.
pub fn can_follow(old: u32, new: u32) -> bool
    ensures { IsTrue result ↔ IsReachable old new }
{
    match old {
        0 => new == 0 || new == 1 || new == 2,
        1 => new == 1 || new == 3,
        2 => new == 2 || new == 4,
        3 => new == 3 || new == 1 || new == 0,
        4 => new == 4 || new == 2 || new == 0,
        _ => false,
    }
}
