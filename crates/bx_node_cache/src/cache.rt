//! The cache.

ghost use Rattle.std.specs.Prelude.{◌≡◌, ℕ, ◌<◌, [], IfOk, IfSome, None, OnOk, Some, false};
ghost use Rattle.std.specs.List.{AllByRecursion};
ghost use Rattle.bx_layout.specs.Blocks.{HasParts};
ghost use Rattle.bx_node_cache.specs.Kept.{AreHomesOf, Commits, LeavesHint, OnlyHinted, OnlyKept, Settles, away_in, held_in, hint_in, home_runs, kept_in};
ghost use Rattle.bx_node_cache.specs.Shares.{shares_held};
ghost use Rattle.bx_places.specs.Places.{IsBlock, IsVolume, block_place, log_device};

use bx_base::{Mode, OutOfMemory, Raw};
use bx_layout::Block;
use bx_places::{gate_place, place};
use bx_records::{Draft, Runs};
use bx_redo::home_of;
use bx_views::View;
use std::alloc::Global;
use std::collections::BTreeMap;
use std::marker::Model;

/// The kind number of a write that brings blocks home.
const HOME: u8 = 16;

/// A block that is held.
#[derive(Drop)]
pub struct Kept {
    /// How it is held.
    pub mode: Mode,
    /// What it is, with all that was committed.
    pub block: Block,
    /// Whether it was committed and isn't home yet.
    pub committed: bool,
}

/// The blocks that a node holds, and hints of blocks that it held once. Contracts see it as the lists of both, in the order of
/// the blocks' numbers.
#[derive(Drop)]
pub struct Cache {
    alloc: Global,
    devices: u32,
    areas: u16,
    kept: BTreeMap<u64, Kept>,
    hinted: BTreeMap<u64, Block>,
}

impl Model for Cache {
    ghost use Rattle.bx_node_cache.specs.Kept.{CacheView, IsCache};

    ghost Value = { CacheView };

    ghost view = { λ cache. record { devices = cache.devices; areas = cache.areas; kept = cache.kept.entries; hinted = cache.hinted.entries } };

    ghost invariant = { λ cache. IsCache (record { devices = cache.devices; areas = cache.areas; kept = cache.kept.entries; hinted = cache.hinted.entries }) };
}

impl View for Cache {
    ghost held = { λ cache. held_in cache.kept };

    ghost hints = { λ cache. hint_in cache.hinted };

    ghost shares = { λ cache at block is. shares_held cache.kept at block is };

    fn block(&self, at: u64, mode: Mode) -> Option<&Block> {
        let kept = self.kept.get(&at)?;
        match (kept.mode, mode) {
            (Mode::Shared, Mode::Exclusive) => None,
            _ => Some(&kept.block),
        }
    }

    fn hint(&self, at: u64) -> Option<&Block> {
        self.hinted.get(&at)
    }
}

impl Cache {
    /// Nothing yet, of a volume of so many devices and areas. It takes no memory.
    pub fn new(alloc: Global, devices: u32, areas: u16) -> Cache
        requires volume { IsVolume devices areas }
        ensures { result ≡ record { devices = devices; areas = areas; kept = []; hinted = [] } }
    {
        Cache {
            alloc,
            devices,
            areas,
            kept: BTreeMap::new(alloc),
            hinted: BTreeMap::new(alloc),
        }
    }

    /// Of which volume it is: of so many devices and areas. It takes no memory.
    pub fn volume(&self) -> (u32, u16)
        ensures volume { result ≡ (self.now.devices, self.now.areas) }
        ensures is_volume { IsVolume self.now.devices self.now.areas }
    {
        (self.devices, self.areas)
    }

    /// What it keeps are blocks of its volume.
    pub fn are_blocks(&self)
        ensures volume { IsVolume self.now.devices self.now.areas }
        ensures blocks { (at : ℕ) → IfSome (kept_in self.now.kept at) (λ one. IsBlock self.now.areas at × HasParts one.block) }
    {
        let _ = &self.alloc;
    }

    /// Keeps a block that was read while it is held.
    pub fn hold(&mut self, at: u64, mode: Mode, block: Block) -> Result<(), OutOfMemory>
        requires is_block { IsBlock self.old.areas at }
        requires parts { HasParts block }
        ensures kept { OnOk result (OnlyKept at (Some (record { mode = mode; block = block; committed = false })) self.old.kept self.new.kept) }
        ensures stays { (self.new.hinted ≡ self.old.hinted) × (self.new.devices ≡ self.old.devices) × (self.new.areas ≡ self.old.areas) }
    {
        self.kept.insert(
            at,
            Kept {
                mode,
                block,
                committed: false,
            },
        )?;
        Ok(())
    }

    /// Lays changed blocks over what is kept. They are not home yet.
    pub fn commit(&mut self, draft: &Draft) -> Result<(), OutOfMemory>
        requires blocks { AllByRecursion (λ change. IsBlock self.old.areas change.0 × HasParts change.1) draft.now }
        ensures kept { OnOk result (Commits draft.now self.old.kept self.new.kept) }
        ensures stays { (self.new.hinted ≡ self.old.hinted) × (self.new.devices ≡ self.old.devices) × (self.new.areas ≡ self.old.areas) }
    {
        self.lay(draft.blocks())
    }

    /// Lays the last of them first, so that of two with one number the first one stays.
    fn lay(&mut self, changed: &[(u64, Block)]) -> Result<(), OutOfMemory>
        requires blocks { AllByRecursion (λ change. IsBlock self.old.areas change.0 × HasParts change.1) changed.now }
        ensures kept { OnOk result (Commits changed.now self.old.kept self.new.kept) }
        ensures stays { (self.new.hinted ≡ self.old.hinted) × (self.new.devices ≡ self.old.devices) × (self.new.areas ≡ self.old.areas) }
    {
        let Some((first, others)) = changed.split_first() else {
            return Ok(());
        };
        self.lay(others)?;
        let (at, block) = first;
        let copy = Block {
            handle: block.handle,
            kind: block.kind,
            payload: Raw::of(self.alloc, block.payload.bytes())?,
        };
        self.kept.insert(
            *at,
            Kept {
                mode: Mode::Exclusive,
                block: copy,
                committed: true,
            },
        )?;
        Ok(())
    }

    /// The writes that bring home exactly the committed blocks.
    pub fn homes(&self) -> Result<Runs, OutOfMemory>
        ensures runs { IfOk result (λ runs. runs ≡ (16, home_runs self.now.devices self.now.kept)) }
        ensures homes { OnOk result (AreHomesOf self.now.devices self.now.areas (away_in self.now.kept) (home_runs self.now.devices self.now.kept)) }
    {
        let mut runs = Runs::new(self.alloc, HOME);
        for (at, kept) in self.kept.iter() {
            if kept.committed {
                let write = home_of(self.alloc, self.devices, self.areas, *at, &kept.block)?;
                runs.push(write)?;
            }
        }
        Ok(runs)
    }

    /// All that was committed is home.
    pub fn settle(&mut self)
        ensures kept { Settles self.old.kept self.new.kept }
        ensures stays { (self.new.hinted ≡ self.old.hinted) × (self.new.devices ≡ self.old.devices) × (self.new.areas ≡ self.old.areas) }
    {
        settle_all(&mut self.kept);
    }

    /// Where a block stands: its device, and the first of its nine sectors there. It takes no memory.
    pub fn place(&self, at: u64) -> (u32, u64)
        requires is_block { IsBlock self.now.areas at }
        ensures volume { IsVolume self.now.devices self.now.areas }
        ensures place { result ≡ block_place at self.now.devices }
    {
        place(at, self.devices, self.areas)
    }

    /// The device on which a log slot stands. It takes no memory.
    pub fn device_of(&self, slot: u32) -> u32
        requires slot { slot < 8 }
        ensures { result ≡ log_device slot self.now.devices }
    {
        let (device, _) = gate_place(slot, 0, self.devices);
        device
    }

    /// Lets a block go. It stays as a hint, where there is memory for that.
    pub fn let_go(&mut self, at: u64)
        ensures kept { OnlyKept at None self.old.kept self.new.kept }
        ensures hint { LeavesHint (kept_in self.old.kept at) (hint_in self.old.hinted at) (hint_in self.new.hinted at) }
        ensures hints { OnlyHinted at self.old.hinted self.new.hinted }
        ensures is_block { IfSome (kept_in self.old.kept at) (λ one. IsBlock self.old.areas at) }
        ensures stays { (self.new.devices ≡ self.old.devices) × (self.new.areas ≡ self.old.areas) }
    {
        if let Some(kept) = self.kept.remove(&at) {
            let _kept = self.hinted.insert(at, kept.block).is_ok();
        }
    }

    /// Forgets what is held, as where the session under which it is held has ended. Hints stay.
    pub fn forget(&mut self)
        ensures kept { self.new.kept ≡ [] }
        ensures stays { (self.new.hinted ≡ self.old.hinted) × (self.new.devices ≡ self.old.devices) × (self.new.areas ≡ self.old.areas) }
    {
        self.kept.clear();
    }
}

/// All that was committed is home.
fn settle_all(kept: &mut BTreeMap<u64, Kept>)
    ensures { Settles kept.old.entries kept.new.entries }
{
    // Every block stays: `retain` goes over them in order and lets each be written.
    kept.retain(|_, one| {
        one.committed = false;
        true
    });
}
