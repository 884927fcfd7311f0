//! Laws of dead files: they are marked, lose their pieces and are gone.

ghost use Rattle.std.specs.Prelude.{◌≡◌, ◌≢◌, ◌≤◌, ◌==◌, ℕ, Bool, true, false, Some};
ghost use Rattle.bx_views.specs.bx_layout.specs.declared.area.AreaBlock.{AreaBlock};
ghost use Rattle.bx_views.specs.bx_layout.specs.declared.block.Block.{Block};
ghost use Rattle.bx_model.specs.declared.tree.Tree.{Tree};
ghost use Rattle.bx_truth.specs.Chunks.{IsChunked, IsSlot, block_at, chunks_of};
ghost use Rattle.bx_truth.specs.Dying.{IsDeadFile, IsShownDead, MarksSlot};
ghost use Rattle.bx_truth.specs.PageTrees.{PageTree};
ghost use Rattle.bx_truth.specs.Pieces.{CutsPiece};
ghost use Rattle.bx_truth.specs.Shown.{KeepsOthers, KeepsSlots};
ghost use Rattle.bx_truth.specs.Slots.{SetsMark};
ghost use Rattle.bx_truth.specs.Stands.{StandsFor, inode_of};
ghost use Rattle.bx_truth.specs.Stored.{Owner, Stored};
ghost use Rattle.bx_views.specs.Truths.{Truth};

/// A slot is marked as a dead inode's, or no more: the chunks stay, and no other mark changes. So it is where a step that leaves the
/// slots comes before it or behind it.
pub fn a_slot_is_marked()
    ensures chunks { (areas : ℕ) (truth now : Truth) (block : ℕ) (slots slots_now : AreaBlock) (dead : Bool) → SetsMark truth now block slots slots_now dead
        → (handle : ℕ) → chunks_of areas now handle ≡ chunks_of areas truth handle }
    ensures marks { (areas : ℕ) (truth now : Truth) (block : ℕ) (slots slots_now : AreaBlock) (dead : Bool) → SetsMark truth now block slots slots_now dead
        → (handle : ℕ) → IsSlot areas block → block_at handle ≡ block → IsChunked areas truth → MarksSlot areas truth now handle dead }
    ensures behind { (areas : ℕ) (a b c : Truth) (handle : ℕ) (dead : Bool) → KeepsSlots areas a b → MarksSlot areas b c handle dead → MarksSlot areas a c handle dead }
    ensures before { (areas : ℕ) (a b c : Truth) (handle : ℕ) (dead : Bool) → IsSlot areas (block_at handle) → MarksSlot areas a b handle dead → KeepsSlots areas b c → MarksSlot areas a c handle dead }
{}

/// Where a dead file's inode is shown anew as a dead one's, and all else stays, the truth stands for the same tree.
pub fn a_dead_file_is_put()
    ensures { (areas : ℕ) (truth now : Truth) (tree : Tree) (handle : ℕ) (owner_now : ℕ → Owner) (stored_now : Stored) (is : StandsFor areas truth tree)
        → IsDeadFile areas truth tree is handle → KeepsSlots areas truth now → KeepsOthers areas truth now tree is owner_now handle
        → IsShownDead (chunks_of areas now) owner_now handle stored_now → StandsFor areas now tree }
{}

/// Where a dead file has a piece less, and all chunks but this and the file's pages stay, the truth stands for the same tree.
pub fn a_dead_piece_is_cut()
    ensures { (areas : ℕ) (truth now : Truth) (tree : Tree) (handle : ℕ) (after : PageTree) (index names : ℕ) (is : StandsFor areas truth tree)
        → IsDeadFile areas truth tree is handle → (is.stored handle).inode.tree ≢ 0 → KeepsSlots areas truth now
        → CutsPiece (chunks_of areas truth) (chunks_of areas now) (is.stored handle) after index names → areas ≤ 64
        → StandsFor areas now tree }
{}

/// Where nothing of a dead file is left, its slot isn't marked any more and all else stays, the truth stands for the same tree.
pub fn a_dead_file_is_gone()
    ensures { (areas : ℕ) (truth now : Truth) (tree : Tree) (handle : ℕ) (is : StandsFor areas truth tree)
        → IsDeadFile areas truth tree is handle → MarksSlot areas truth now handle false → KeepsOthers areas truth now tree is is.owner handle
        → ((h : ℕ) (b : Block) → chunks_of areas now h ≡ Some b → (inode_of h (is.owner h) == handle) ≡ false)
        → StandsFor areas now tree }
{}
