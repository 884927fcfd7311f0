//! Laws of chunks: the slots of areas, and what a draft or a slot that is taken makes of them.

ghost use Rattle.bx_views.specs.bx_layout.specs.Areas.{SpellsArea, is_dead};
ghost use Rattle.bx_views.specs.Truths.{Changed, block_in};
ghost use Rattle.bx_views.specs.bx_layout.specs.declared.area.AreaBlock.{AreaBlock};
ghost use Rattle.bx_views.specs.bx_layout.specs.declared.block.Block.{Block};
ghost use Rattle.bx_model.specs.bx_tree_files.specs.Files.{file_at};
ghost use Rattle.bx_model.specs.declared.tree.Tree.{Tree};
ghost use Rattle.bx_truth.specs.Shown.{KeepsSlots};
ghost use Rattle.bx_truth.specs.Chunks.{IsChunked, IsSlot, block_at, chunks_of, own_block, word_in, dead_in};
ghost use Rattle.bx_truth.specs.Stands.{StandsFor};
ghost use Rattle.bx_truth.specs.Slots.{TakesSlot, FreesSlot};
ghost use Rattle.bx_views.specs.Truths.{Truth, with_draft};
ghost use Rattle.std.specs.Prelude.{◌≡◌, ℕ, ◌<◌, ◌≤◌, ◌==◌, if◌then◌else◌, List, Some, None, option_map, slice_index, unwrap_or, Contains};

/// What is read off the payload of an area's own block is the area: the word of each slot, and whether it holds a dead inode.
pub fn words_are_the_area()
    ensures word { (area : AreaBlock) (payload : List ℕ) (slot : ℕ) → SpellsArea area payload → slot < 960 → word_in payload slot ≡ slice_index area.words slot }
    ensures dead { (area : AreaBlock) (payload : List ℕ) (slot : ℕ) → SpellsArea area payload → slot < 960 → dead_in payload slot ≡ is_dead area slot }
{}

/// A draft that changes no area's own block and no header leaves the slots as they are, and lays its blocks over the chunks.
pub fn a_draft_in_place()
    ensures chunks { (areas : ℕ) (truth : Truth) (draft : List Changed)
        → ((area : ℕ) → area < areas → block_in draft (own_block area) ≡ None)
        → ((at : ℕ) (block : Block) → block_in draft at ≡ Some block → block.handle ≡ (truth at).handle)
        → (handle : ℕ) → chunks_of areas (with_draft truth draft) handle ≡ option_map (unwrap_or (block_in draft (block_at handle))) (chunks_of areas truth handle) }
    ensures chunked { (areas : ℕ) (truth : Truth) (draft : List Changed)
        → ((area : ℕ) → area < areas → block_in draft (own_block area) ≡ None)
        → ((at : ℕ) (block : Block) → block_in draft at ≡ Some block → block.handle ≡ (truth at).handle)
        → IsChunked areas truth → IsChunked areas (with_draft truth draft) }
{}

/// A slot is taken: the chunk map gains its new handle, with the block that is there now, and no other changes.
pub fn a_slot_is_taken()
    ensures chunked { (areas : ℕ) (truth now : Truth) (block : ℕ) (slots : AreaBlock) → areas ≤ 64 → IsSlot areas block → TakesSlot truth now block slots → IsChunked areas truth → IsChunked areas now }
    ensures chunks { (areas : ℕ) (truth now : Truth) (block : ℕ) (slots : AreaBlock) → areas ≤ 64 → IsSlot areas block → TakesSlot truth now block slots
        → (handle : ℕ) → chunks_of areas now handle ≡ (if handle == (now block).handle then Some (now block) else chunks_of areas truth handle) }
{}

/// A slot is freed: the chunk map loses the handle that the block had, and no other changes.
pub fn a_slot_is_freed()
    ensures chunked { (areas : ℕ) (truth now : Truth) (block : ℕ) (slots : AreaBlock) → areas ≤ 64 → IsSlot areas block → FreesSlot truth now block slots → IsChunked areas truth → IsChunked areas now }
    ensures chunks { (areas : ℕ) (truth now : Truth) (block : ℕ) (slots : AreaBlock) → areas ≤ 64 → IsSlot areas block → FreesSlot truth now block slots → IsChunked areas truth
        → (handle : ℕ) → chunks_of areas now handle ≡ (if handle == (truth block).handle then None else chunks_of areas truth handle) }
{}

/// Slots stay as they are for the files that there are: where one is taken or freed, and in one step after another.
pub fn slots_are_kept()
    ensures taken { (areas : ℕ) (truth now : Truth) (block : ℕ) (slots : AreaBlock) → areas ≤ 64 → IsSlot areas block → TakesSlot truth now block slots → IsChunked areas truth → KeepsSlots areas truth now }
    ensures freed { (areas : ℕ) (truth now : Truth) (block : ℕ) (slots : AreaBlock) → areas ≤ 64 → IsSlot areas block → FreesSlot truth now block slots → IsChunked areas truth → KeepsSlots areas truth now }
    ensures steps { (areas : ℕ) (a b c : Truth) → KeepsSlots areas a b → KeepsSlots areas b c → KeepsSlots areas a c }
{}

/// The handle of a slot that is taken was never given out, and no file is in its block, so that its number is no file's.
pub fn a_taken_handle_is_new()
    ensures never { (areas : ℕ) (truth now : Truth) (tree : Tree) (block : ℕ) (slots : AreaBlock) → areas ≤ 64 → IsSlot areas block → TakesSlot truth now block slots → StandsFor areas truth tree
        → Contains tree.given (now block).handle → ⊥ }
    ensures none { (areas : ℕ) (truth now : Truth) (tree : Tree) (block : ℕ) (slots : AreaBlock) → areas ≤ 64 → IsSlot areas block → TakesSlot truth now block slots → StandsFor areas truth tree
        → (handle : ℕ) → block_at handle ≡ block → file_at tree.files handle ≡ None }
{}
