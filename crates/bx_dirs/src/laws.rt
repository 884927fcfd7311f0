//! Laws of directories.

ghost use Rattle.std.specs.Prelude.{◌≡◌, ◌≤◌, ℕ, List, Some};
ghost use Rattle.bx_dirs.specs.Entries.{HasEntries};
ghost use Rattle.bx_inodes.specs.Fitting.{HintsFitAll};
ghost use Rattle.bx_inodes.specs.Inodes.{HoldsInode};
ghost use Rattle.bx_layout.specs.declared.inode.Inode.{Inode};
ghost use Rattle.bx_model.specs.declared.tree.Tree.{Tree};
ghost use Rattle.bx_records.specs.Drafts.{Changed};
ghost use Rattle.bx_tree_files.specs.declared.file.Body.TheVariants.{Names};
ghost use Rattle.bx_tree_files.specs.declared.file.File.{File};
ghost use Rattle.bx_tree_files.specs.declared.file.Name.{Name};
ghost use Rattle.bx_tree_files.specs.Files.{file_at};
ghost use Rattle.bx_truth.specs.Stands.{StandsFor};
ghost use Rattle.bx_views.specs.Truths.{Truth, Held, Hints, IsTruth, with_draft};

/// The tree under a directory's root has its entries, and calls on it may rest on them where the hints fit all trees.
pub fn a_directory_has_entries()
    ensures { (areas : ℕ) (held : Held) (hints : Hints) (truth : Truth) (draft : List Changed) (tree : Tree) (handle : ℕ) (inode : Inode) (file : File) (parent next : ℕ) (names : List Name)
        → areas ≤ 64 → IsTruth held truth → StandsFor areas (with_draft truth draft) tree → HintsFitAll areas hints (with_draft truth draft)
        → HoldsInode areas (with_draft truth draft) handle inode → file_at tree.files handle ≡ Some file → file.body ≡ Names parent next names
        → HasEntries areas held hints truth draft inode.tree names }
{}
