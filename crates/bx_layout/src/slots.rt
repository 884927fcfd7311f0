//! What is asked of the slots of an area, and what changes them.

ghost use Rattle.std.specs.Prelude.{◌≡◌, ℕ, ◌+◌, ◌^◌, ◌<◌, ◌==◌, if◌then◌else◌, false, IsTrue, IfSome, IfNone, count_by, slice_index};
ghost use Rattle.bx_layout.specs.Areas.{IsArea, IsLowestFree, MarksDead, bit, in_use, generation_in, is_free, is_dead, taken_word, freed_word, with_word};

use crate::area::AreaBlock;
use bx_places::SLOTS;

/// The highest bit of a word, which is set where the slot is in use.
const IN_USE: u32 = 2_147_483_648;

/// The greatest generation: a slot of it isn't given any more.
const LAST_GENERATION: u32 = 2_147_483_647;

impl AreaBlock {
    /// Whether a slot, below 960, is free: it isn't in use, and its generation isn't the last.
    pub fn is_free(&self, slot: u16) -> bool
        requires area { IsArea self.now }
        requires slot { slot < 960 }
        ensures { result ≡ is_free (slice_index self.now.words slot) }
    {
        is_free_word(self.word(slot))
    }

    /// Whether a slot, below 960, is in use.
    pub fn is_used(&self, slot: u16) -> bool
        requires area { IsArea self.now }
        requires slot { slot < 960 }
        ensures { result ≡ in_use (slice_index self.now.words slot) }
    {
        is_used_word(self.word(slot))
    }

    /// The generation of a slot, below 960: how often it was taken.
    pub fn generation(&self, slot: u16) -> u32
        requires area { IsArea self.now }
        requires slot { slot < 960 }
        ensures { result ≡ generation_in (slice_index self.now.words slot) }
    {
        generation_of(self.word(slot))
    }

    /// The lowest slot that is free; `None` exactly where none is.
    pub fn lowest_free(&self) -> Option<u16>
        requires { IsArea self.now }
        ensures some { IfSome result (IsLowestFree self.now) }
        ensures none { IfNone result ((slot : ℕ) → slot < 960 → is_free (slice_index self.now.words slot) ≡ false) }
    {
        for slot in 0..SLOTS {
            if self.is_free(slot) {
                return Some(slot);
            }
        }
        None
    }

    /// How many slots are free.
    pub fn free_slots(&self) -> u32
        requires { IsArea self.now }
        ensures { result ≡ count_by is_free self.now.words }
    {
        let mut count = 0;
        for word in self.words.items() {
            if is_free_word(*word) {
                count += 1;
            }
        }
        count
    }

    /// Takes a slot, below 960, that is free, and gives its new generation, one above the one before.
    pub fn take(&mut self, slot: u16) -> u32
        requires area { IsArea self.old }
        requires slot { slot < 960 }
        requires free { IsTrue (is_free (slice_index self.old.words slot)) }
        ensures taken { self.new ≡ with_word self.old slot (taken_word (slice_index self.old.words slot)) }
        ensures generation { result ≡ generation_in (slice_index self.new.words slot) }
        ensures above { result ≡ generation_in (slice_index self.old.words slot) + 1 }
        ensures area { IsArea self.new }
    {
        let generation = self.generation(slot) + 1;
        self.words.set(slot as usize, IN_USE + generation);
        generation
    }

    /// Frees a slot, below 960, that is in use. Its generation stays.
    pub fn free(&mut self, slot: u16)
        requires area { IsArea self.old }
        requires slot { slot < 960 }
        requires used { IsTrue (in_use (slice_index self.old.words slot)) }
        ensures freed { self.new ≡ with_word self.old slot (freed_word (slice_index self.old.words slot)) }
        ensures area { IsArea self.new }
    {
        let generation = self.generation(slot);
        self.words.set(slot as usize, generation);
    }

    /// Whether a slot, below 960, holds a dead inode.
    pub fn is_dead(&self, slot: u16) -> bool
        requires area { IsArea self.now }
        requires slot { slot < 960 }
        ensures { result ≡ is_dead self.now slot }
    {
        let byte = self.dead.bytes()[slot as usize / 8];
        (byte >> (slot % 8)) & 1 == 1
    }

    /// Notes whether a slot, below 960, holds a dead inode.
    pub fn mark_dead(&mut self, slot: u16, dead: bool)
        requires area { IsArea self.old }
        requires slot { slot < 960 }
        ensures marked { MarksDead self.old self.new slot dead }
        ensures area { IsArea self.new }
    {
        let at = slot as usize / 8;
        let byte = with_bit(self.dead.bytes()[at], slot % 8, dead);
        self.dead.set(at, byte);
    }

    /// The word of a slot.
    fn word(&self, slot: u16) -> u32
        requires area { IsArea self.now }
        requires slot { slot < 960 }
        ensures { result ≡ slice_index self.now.words slot }
    {
        self.words.items()[slot as usize]
    }
}

/// Whether a slot with this word is in use.
fn is_used_word(word: u32) -> bool
    ensures { result ≡ in_use word }
{
    word >= IN_USE
}

/// The generation in a word.
fn generation_of(word: u32) -> u32
    ensures { result ≡ generation_in word }
{
    word % IN_USE
}

/// Whether a slot with this word is free.
fn is_free_word(word: u32) -> bool
    ensures { result ≡ is_free word }
{
    !is_used_word(word) && generation_of(word) < LAST_GENERATION
}

/// The byte in which one bit, counted from the lowest, is this one.
fn with_bit(byte: u8, place: u16, set: bool) -> u8
    requires { place < 8 }
    ensures { (other : ℕ) → other < 8 → bit result other ≡ (if other == place then set else bit byte other) }
{
    let mask = 1u8 << place;
    if set { byte | mask } else { byte & !mask }
}
