//! Laws of hints.

ghost use Rattle.std.specs.Prelude.{◌≡◌, ◌≢◌, ◌≤◌, ℕ, List, Some};
ghost use Rattle.bx_layout.specs.declared.inode.Inode.{Inode};
ghost use Rattle.bx_blink.specs.bx_model.specs.declared.tree.Tree.{Tree};
ghost use Rattle.bx_blink.specs.bx_records.specs.Drafts.{Changed};
ghost use Rattle.bx_blink.specs.bx_tree_files.specs.declared.file.File.{File};
ghost use Rattle.bx_blink.specs.bx_tree_files.specs.Files.{file_at};
ghost use Rattle.bx_blink.specs.bx_truth.specs.Chunks.{chunks_of};
ghost use Rattle.bx_blink.specs.bx_truth.specs.PageTrees.{PageTree, IsTree};
ghost use Rattle.bx_blink.specs.bx_truth.specs.Stands.{StandsFor};
ghost use Rattle.bx_blink.specs.bx_views.specs.Truths.{Truth, Held, Hints, IsTruth, with_draft};
ghost use Rattle.bx_inodes.specs.Hints.{HintsFit};
ghost use Rattle.bx_inodes.specs.Inodes.{HoldsInode};
ghost use Rattle.bx_inodes.specs.Fitting.{HintsFitAll, Continues, ChangesOne};
ghost use Rattle.bx_inodes.specs.Pages.{HasPages};

/// A file that is no link has pages, on which calls on its tree may rest where the hints fit all trees.
pub fn a_file_has_pages()
    ensures { (areas : ℕ) (held : Held) (hints : Hints) (truth : Truth) (draft : List Changed) (tree : Tree) (handle : ℕ) (inode : Inode) (file : File)
        → areas ≤ 64 → IsTruth held truth → (is : StandsFor areas (with_draft truth draft) tree) → HintsFitAll areas hints (with_draft truth draft)
        → HoldsInode areas (with_draft truth draft) handle inode → file_at tree.files handle ≡ Some file → inode.kind ≢ 5
        → HasPages areas held hints truth draft tree is handle inode file }
{}

/// Hints that fit one page tree under a root fit any other that the same chunks have there.
pub fn one_tree_has_the_hints()
    ensures { (areas : ℕ) (hints : Hints) (truth : Truth) (root : ℕ) (a b : PageTree) → IsTree (chunks_of areas truth) root a → IsTree (chunks_of areas truth) root b
        → HintsFit areas hints truth root a → HintsFit areas hints truth root b }
{}

/// Hints that fit a page tree still fit it in a truth that continues the one before.
pub fn hints_fit_later()
    ensures { (areas : ℕ) (hints : Hints) (truth now : Truth) (root : ℕ) (tree : PageTree) → Continues areas truth now → HintsFit areas hints truth root tree → HintsFit areas hints now root tree }
{}

/// Hints that fit all trees still fit them where only chunks of one inode changed, if they fit the tree of this one.
pub fn hints_still_fit()
    ensures { (areas : ℕ) (hints : Hints) (truth now : Truth) (tree : Tree) (handle : ℕ) → StandsFor areas now tree → Continues areas truth now → ChangesOne areas truth now handle
        → ((inode : Inode) (pages : PageTree) → HoldsInode areas now handle inode → IsTree (chunks_of areas now) inode.tree pages → HintsFit areas hints now inode.tree pages)
        → HintsFitAll areas hints truth → HintsFitAll areas hints now }
{}
