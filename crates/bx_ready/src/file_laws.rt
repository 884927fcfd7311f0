//! Laws of page trees that grow.

ghost use Rattle.std.specs.Prelude.{◌≡◌, ℕ, Bool, List, Some};
ghost use Rattle.bx_ready.specs.Growing.{GrowsPages};
ghost use Rattle.bx_ready.specs.Keeping.{KeepsFiles};
ghost use Rattle.bx_inodes.specs.Inodes.{HoldsInode};
ghost use Rattle.bx_layout.specs.declared.inode.Inode.{Inode};
ghost use Rattle.bx_model.specs.declared.tree.Tree.{Tree};
ghost use Rattle.bx_posts.specs.declared.posting.Posted.{Posted};
ghost use Rattle.bx_posts.specs.Posts.{PostsPage};
ghost use Rattle.bx_records.specs.Drafts.{Changed};
ghost use Rattle.bx_posts.specs.bx_splits.specs.Splits.{SplitsPage};
ghost use Rattle.bx_tree_files.specs.declared.file.File.{File};
ghost use Rattle.bx_tree_files.specs.Files.{file_at};
ghost use Rattle.bx_truth.specs.Chunks.{chunks_of};
ghost use Rattle.bx_truth.specs.PageTrees.{Node, PageTree, IsTree};
ghost use Rattle.bx_truth.specs.Shown.{KeepsSlots};
ghost use Rattle.bx_truth.specs.Stands.{StandsFor};
ghost use Rattle.bx_truth.specs.Stored.{HasTree};
ghost use Rattle.bx_views.specs.Truths.{Truth, Held, Hints, with_draft};

/// Where a file's page tree gets new pages and keeps its map, the truth stands for the same tree of files.
pub fn a_grown_tree_is_the_same()
    ensures { (areas : ℕ) (truth now : Truth) (tree : Tree) (handle : ℕ) (file : File) (after : PageTree) (is_new : ℕ → Bool)
        → (is : StandsFor areas truth tree) → file_at tree.files handle ≡ Some file → HasTree (chunks_of areas truth) is.owner handle (is.stored handle)
        → KeepsSlots areas truth now
        → GrowsPages (chunks_of areas truth) (chunks_of areas now) (is.stored handle).inode.tree (is.stored handle).tree after is_new
        → StandsFor areas now tree }
{}

/// A split and a post in the page tree of a file keep all files and all hints that fitted.
pub fn splits_and_posts_keep_files()
    ensures split { (areas : ℕ) (held : Held) (hints : Hints) (truth : Truth) (old new : List Changed) (tree : Tree) (handle : ℕ) (inode : Inode) (file : File) (pages : PageTree) (page : ℕ)
        → StandsFor areas (with_draft truth old) tree → HoldsInode areas (with_draft truth old) handle inode → file_at tree.files handle ≡ Some file
        → IsTree (chunks_of areas (with_draft truth old)) inode.tree pages → SplitsPage areas held hints truth old new inode.tree pages page
        → KeepsFiles areas truth old new tree }
    ensures post { (areas : ℕ) (held : Held) (hints : Hints) (truth : Truth) (old new : List Changed) (tree : Tree) (handle : ℕ) (inode : Inode) (file : File) (pages : PageTree) (node : Node) (posted : Posted)
        → StandsFor areas (with_draft truth old) tree → HoldsInode areas (with_draft truth old) handle inode → file_at tree.files handle ≡ Some file
        → IsTree (chunks_of areas (with_draft truth old)) inode.tree pages → PostsPage areas held hints truth old new inode.tree pages node posted
        → KeepsFiles areas truth old new tree }
{}
