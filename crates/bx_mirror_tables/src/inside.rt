//! Runs that lie within a device.

ghost use Rattle.std.specs.Prelude.{◌↔◌, IsTrue};
ghost use Rattle.bx_mirror_tables.specs.Inside.{AreInside, IsInside};

use bx_records::{Run, Runs};

/// The bytes of a sector.
const SECTOR: u64 = 512;

/// Whether a run lies behind the label, and ends within so many sectors.
fn is_inside(run: &Run, room: u64) -> bool
    ensures { IsTrue result ↔ IsInside room run.now }
{
    let sectors = run.bytes.bytes().len() as u64 / SECTOR;
    run.place >= 1 && sectors <= room && run.place <= room - sectors
}

/// Whether all of these runs lie behind the label, and end within so many sectors.
pub fn are_inside(runs: &Runs, room: u64) -> bool
    ensures { IsTrue result ↔ AreInside room runs.now.1 }
{
    for i in 0..runs.len() {
        let Some(run) = runs.get(i) else {
            return true;
        };
        if !is_inside(run, room) {
            return false;
        }
    }
    true
}
