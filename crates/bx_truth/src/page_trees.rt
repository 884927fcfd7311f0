//! Laws of page trees.

ghost use Rattle.bx_views.specs.bx_layout.specs.declared.block.Block.{Block};
ghost use Rattle.bx_model.specs.bx_tree_files.specs.Files.{file_at};
ghost use Rattle.bx_model.specs.bx_tree_files.specs.declared.file.File.{File};
ghost use Rattle.bx_model.specs.declared.tree.Tree.{Tree};
ghost use Rattle.bx_truth.specs.Shown.{KeepsSlots};
ghost use Rattle.bx_truth.specs.Splitting.{SplitsTree};
ghost use Rattle.bx_truth.specs.Chunks.{chunks_of};
ghost use Rattle.bx_truth.specs.Stands.{StandsFor};
ghost use Rattle.bx_truth.specs.Stored.{HasTree};
ghost use Rattle.bx_truth.specs.PageTrees.{Chunks, Node, PageTree, IsTree, IsPageOf, map_of};
ghost use Rattle.bx_views.specs.Truths.{Truth};
ghost use Rattle.std.specs.Prelude.{◌≡◌, ℕ, Some};

/// Chunks hold one page tree under a root, and so one map.
pub fn one_page_tree()
    ensures map { (chunks : Chunks) (root : ℕ) (a b : PageTree) → IsTree chunks root a → IsTree chunks root b → map_of a ≡ map_of b }
    ensures pages { (chunks : Chunks) (root : ℕ) (a b : PageTree) (node : Node) → IsTree chunks root a → IsTree chunks root b → IsPageOf a node → IsPageOf b node }
{}

/// Where a file's page tree gets one page more and keeps its map, the truth stands for the same tree of files.
pub fn a_tree_is_split()
    ensures { (areas : ℕ) (truth now : Truth) (tree : Tree) (handle page : ℕ) (file : File) (after : PageTree) (block : Block)
        → (is : StandsFor areas truth tree) → file_at tree.files handle ≡ Some file → HasTree (chunks_of areas truth) is.owner handle (is.stored handle)
        → KeepsSlots areas truth now
        → SplitsTree (chunks_of areas truth) (chunks_of areas now) (is.stored handle).inode.tree (is.stored handle).tree after page block
        → StandsFor areas now tree }
{}
