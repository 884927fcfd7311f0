//! The records of logs, as they stand in bodies.

ghost use Rattle.std.specs.Prelude.{◌≡◌, ◌≢◌, ◌↔◌, ◌+◌, ◌*◌, ◌^◌, ◌<◌, ◌≤◌, length, map, slice_index, IfOk, IfSome, IfNone, IsTrue};
ghost use Rattle.std.specs.List.{AllByRecursion};
ghost use Rattle.bx_records.specs.declared.record_head.RecordHead.{RecordHead};
ghost use Rattle.bx_records.specs.Records.{SpellsHead};
ghost use Rattle.bx_homes.specs.bx_volume.specs.Records.{Logged};
ghost use Rattle.bx_logs.specs.Bodies.{AreNumbers, IsGap, IsRecordAt, StandOn};
ghost use Rattle.bx_disk.specs.Kept.{FailsOn};

use bx_base::{List, Point};
use bx_calls::read_sectors;
use bx_disk::{Rack, RackError};
use bx_homes::read_block;
use bx_layout::Block;
use bx_places::{BLOCK_SECTORS, SECTOR, is_block};
use bx_records::{RecordHead, one_reading};
use std::alloc::Global;
use std::marker::Model;

/// A record of a log: its header, and the blocks behind it with their numbers. Contracts see these two.
#[derive(Drop)]
pub struct Record {
    head: RecordHead,
    changed: List<(u64, Block)>,
}

impl Model for Record {
    ghost use Rattle.bx_homes.specs.bx_volume.specs.Records.{Logged};

    ghost Value = { Logged };

    ghost view = { λ r. record { head = r.head; changed = r.changed } };
}

impl Record {
    ghost use Rattle.bx_logs.specs.Bodies.{point_of};

    /// The record that stands on a disk from a sector on, of a volume with so many areas. `None` exactly where none does.
    pub(crate) fn read<R: Rack>(
        alloc: Global,
        rack: &mut R,
        disk: u32,
        sector: u64,
        areas: u16,
    ) -> Result<Option<Record>, RackError>
        requires disk { disk < length (R.state rack.old).sizes }
        requires room { sector + 145 ≤ slice_index (R.state rack.old).sizes disk }
        requires range { sector + 145 < 2 ^ 64 }
        ensures some { R.tells rack.old → IfOk result (λ found. IfSome found (IsRecordAt (R.state rack.old).reads disk sector areas)) }
        ensures none { R.tells rack.old → IfOk result (λ found. IfNone found ((logged : Logged) → IsRecordAt (R.state rack.old).reads disk sector areas logged → ⊥)) }
        ensures stays { R.state rack.new ≡ R.state rack.old }
        ensures rack { FailsOn R.Rack rack.old rack.new disk result }
    {
        one_reading();
        let Some(head) = read_head(alloc, rack, disk, sector)? else {
            return Ok(None);
        };
        if !are_numbers(areas, head.blocks.items()) {
            return Ok(None);
        }
        let found = read_blocks(alloc, rack, disk, sector + 1, head.blocks.items())?;
        match found {
            Some(changed) => Ok(Some(Record::new(head, changed))),
            None => Ok(None),
        }
    }

    /// The record of a header and the blocks behind it.
    pub fn new(head: RecordHead, changed: List<(u64, Block)>) -> Record
        ensures { result ≡ record { head = head; changed = changed } }
    {
        Record { head, changed }
    }

    /// The point of the call that it is of.
    pub fn point(&self) -> Point
        ensures { result ≡ point_of self.now }
    {
        Point {
            call: self.head.call,
            moment: self.head.moment,
            spare: self.head.spare,
            made: self.head.made,
        }
    }

    /// Its blocks with their numbers.
    pub fn changed(&self) -> &[(u64, Block)]
        ensures { result.now ≡ self.now.changed }
    {
        self.changed.items()
    }
}

/// The header that a sector is; `None` exactly where it is none.
fn read_head<R: Rack>(
    alloc: Global,
    rack: &mut R,
    disk: u32,
    sector: u64,
) -> Result<Option<RecordHead>, RackError>
    requires disk { disk < length (R.state rack.old).sizes }
    requires room { sector < slice_index (R.state rack.old).sizes disk }
    ensures some { R.tells rack.old → IfOk result (λ found. IfSome found (λ head. SpellsHead head ((R.state rack.old).reads disk sector))) }
    ensures few { IfOk result (λ found. IfSome found (λ head. length head.blocks ≤ 16)) }
    ensures none { R.tells rack.old → IfOk result (λ found. IfNone found ((head : RecordHead) → SpellsHead head ((R.state rack.old).reads disk sector) → ⊥)) }
    ensures stays { R.state rack.new ≡ R.state rack.old }
    ensures rack { FailsOn R.Rack rack.old rack.new disk result }
{
    let mut bytes = [0; SECTOR];
    read_sectors(rack, disk, sector, &mut bytes)?;
    let found = RecordHead::read(alloc, &bytes)?;
    Ok(found)
}

/// Whether numbers are those of blocks of a volume with so many areas, each once.
pub fn are_numbers(areas: u16, numbers: &[u64]) -> bool
    ensures { IsTrue result ↔ AreNumbers areas numbers.now }
{
    match numbers {
        [] => true,
        [number, others @ ..] => {
            is_block(*number, areas) && lack(others, *number) && are_numbers(areas, others)
        }
    }
}

/// Whether a number isn't among others.
fn lack(others: &[u64], number: u64) -> bool
    ensures { IsTrue result ↔ AllByRecursion (λ other. other ≢ number) others.now }
{
    others.iter().all(|other| *other != number)
}

/// The blocks that stand one behind the other, with these numbers; `None` exactly where they don't all stand there.
fn read_blocks<R: Rack>(
    alloc: Global,
    rack: &mut R,
    disk: u32,
    sector: u64,
    numbers: &[u64],
) -> Result<Option<List<(u64, Block)>>, RackError>
    requires disk { disk < length (R.state rack.old).sizes }
    requires room { sector + 9 * length numbers.now ≤ slice_index (R.state rack.old).sizes disk }
    requires range { sector + 9 * length numbers.now < 2 ^ 64 }
    ensures numbers { IfOk result (λ found. IfSome found (λ changed. map (λ change. change.0) changed ≡ numbers.now)) }
    ensures some { R.tells rack.old → IfOk result (λ found. IfSome found (StandOn (R.state rack.old).reads disk sector)) }
    ensures none { R.tells rack.old → IfOk result (λ found. IfNone found (IsGap (R.state rack.old).reads disk sector numbers.now)) }
    ensures stays { R.state rack.new ≡ R.state rack.old }
    ensures rack { FailsOn R.Rack rack.old rack.new disk result }
{
    let mut changed = List::new(alloc);
    for at in 0..numbers.len() {
        let place = sector + BLOCK_SECTORS * at as u64;
        let Some(block) = read_block(alloc, rack, disk, place)? else {
            return Ok(None);
        };
        changed.push((numbers[at], block))?;
    }
    Ok(Some(changed))
}
