//! Laws of formats: what is written is read again, and the same bytes are read as one value; and of slots.

ghost use Rattle.std.specs.Prelude.{◌≡◌, ◌↔◌, ℕ, ◌+◌, ◌<◌, false, List, IsTrue};
ghost use Rattle.bx_base.specs.Writing.{padded};
ghost use Rattle.bx_layout.specs.declared.area.AreaBlock.{AreaBlock};
ghost use Rattle.bx_layout.specs.declared.block.Block.{Block};
ghost use Rattle.bx_layout.specs.declared.gate.Gate.{Gate};
ghost use Rattle.bx_layout.specs.declared.gate.Gate.TheVariants.{Open};
ghost use Rattle.bx_layout.specs.declared.inode.Inode.{Inode};
ghost use Rattle.bx_layout.specs.declared.label.Label.{Label};
ghost use Rattle.bx_layout.specs.Areas.{IsArea, SpellsArea, area_text, generation_in, is_free, in_use, taken_word, freed_word};
ghost use Rattle.bx_places.specs.Handles.{number_of, own_handle, parts_of};
ghost use Rattle.bx_layout.specs.Blocks.{HasParts, IsOwn, SpellsBlock, block_text};
ghost use Rattle.bx_layout.specs.Inodes.{IsInode, SpellsInode, inode_text};
ghost use Rattle.bx_layout.specs.Labels.{IsLabel, SpellsLabel, IsOpenGate, label_text, gate_text};

/// What is written of a value is its bytes, so that it is read again.
pub fn written_reads()
    ensures label { (label : Label) → IsLabel label → SpellsLabel label (padded 512 (label_text label)) }
    ensures gate { (gate : Gate) → IsOpenGate (gate_text gate) ↔ (gate ≡ Open) }
    ensures block { (block : Block) → HasParts block → SpellsBlock block (block_text block) }
    ensures area { (area : AreaBlock) → IsArea area → SpellsArea area (padded 4096 (area_text area)) }
    ensures inode { (inode : Inode) → IsInode inode → SpellsInode inode (padded 4096 (inode_text inode)) }
{}

/// Bytes are one value at most: so what is read of what was written is the same, and two values have different bytes.
pub fn one_reading()
    ensures label { (a b : Label) (sector : List ℕ) → SpellsLabel a sector → SpellsLabel b sector → a ≡ b }
    ensures block { (a b : Block) (bytes : List ℕ) → SpellsBlock a bytes → SpellsBlock b bytes → a ≡ b }
    ensures area { (a b : AreaBlock) (payload : List ℕ) → SpellsArea a payload → SpellsArea b payload → a ≡ b }
    ensures inode { (a b : Inode) (payload : List ℕ) → SpellsInode a payload → SpellsInode b payload → a ≡ b }
{}

/// The handle of an area's own block is one of some volume, and no other block of kind 4 has one.
pub fn own_blocks()
    ensures own { (area : ℕ) → area < 64 → IsOwn (parts_of (number_of (own_handle area))) }
    ensures only { (block : Block) → HasParts block → block.kind ≡ 4 → block.handle ≡ number_of (own_handle (parts_of block.handle).area) }
{}

/// A slot that was taken is in use and isn't free, in the generation above the one before, and freeing it leaves it in
/// that generation.
pub fn taken_slots()
    ensures used { (word : ℕ) → IsTrue (is_free word) → IsTrue (in_use (taken_word word)) }
    ensures not_free { (word : ℕ) → IsTrue (is_free word) → is_free (taken_word word) ≡ false }
    ensures above { (word : ℕ) → IsTrue (is_free word) → generation_in (taken_word word) ≡ generation_in word + 1 }
    ensures freed { (word : ℕ) → IsTrue (is_free word) → generation_in (freed_word (taken_word word)) ≡ generation_in word + 1 }
{}
