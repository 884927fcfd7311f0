//! Times.

ghost use Rattle.std.specs.Prelude.{◌≡◌, ◌≤◌};
ghost use Rattle.bx_tree_files.specs.Times.{time_of as time_of_moment};

/// The time of a moment in milliseconds, at most 4294967295999: seconds, and microseconds.
pub(crate) fn time_of(moment: u64) -> (u32, u32)
    requires { moment ≤ 4294967295999 }
    ensures { result ≡ time_of_moment moment }
{
    ((moment / 1000) as u32, 1000 * (moment % 1000) as u32)
}
