//! The newest blocks of records, and their homes.

ghost use Rattle.std.specs.Prelude.{◌≡◌, ℕ, List, IfOk, IfSome, OnOk};
ghost use Rattle.std.specs.List.{AllByRecursion};
ghost use Rattle.std.specs.List.Sorted.{IsStrictlySortedBy};
ghost use Rattle.std.specs.Map.{keys_of};
ghost use Rattle.std.specs.Ordering.{nat_cmp};
ghost use Rattle.bx_layout.specs.Blocks.{HasParts};
ghost use Rattle.bx_logs.specs.Newest.{newest_at};
ghost use Rattle.bx_places.specs.Places.{IsBlock, IsVolume};
ghost use Rattle.bx_records.specs.Drafts.{Changed};
ghost use Rattle.bx_redo.specs.bx_volume.specs.Records.{IsLogged};
ghost use Rattle.bx_recover.specs.HomesOf.{AreNewestOf, home_runs};

use bx_base::OutOfMemory;
use bx_logs::{Newest, Record, newest_of};
use bx_records::Runs;
use bx_redo::home_of;
use std::alloc::Global;

/// The kind number of the packets that carry blocks home.
const HOME: u8 = 16;

/// The runs that write of each block that the records have the newest into its home, in order of the blocks. The oldest record comes first.
pub(crate) fn homes_of(
    alloc: Global,
    devices: u32,
    areas: u16,
    records: &[Record],
) -> Result<Runs, OutOfMemory>
    requires volume { IsVolume devices areas }
    requires logged { AllByRecursion (IsLogged areas) records.now }
    ensures { IfOk result (λ runs. (blocks : List Changed) × AreNewestOf records.now blocks × (runs ≡ (16, home_runs devices blocks))) }
{
    let newest = newest_of(alloc, records)?;
    runs_of(alloc, devices, areas, &newest)
}

/// The runs that write blocks into their homes, in order of the blocks.
fn runs_of(alloc: Global, devices: u32, areas: u16, newest: &Newest) -> Result<Runs, OutOfMemory>
    requires volume { IsVolume devices areas }
    requires blocks { (at : ℕ) → IfSome (newest_at newest.now at) (λ block. IsBlock areas at × HasParts block) }
    ensures runs { IfOk result (λ runs. runs ≡ (16, home_runs devices newest.now.entries)) }
    ensures order { OnOk result (IsStrictlySortedBy nat_cmp (keys_of newest.now.entries)) }
{
    let mut runs = Runs::new(alloc, HOME);
    for (at, block) in newest.iter() {
        let run = home_of(alloc, devices, areas, *at, block)?;
        runs.push(run)?;
    }
    Ok(runs)
}
