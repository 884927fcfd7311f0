//! A truth that stands for more than a root.

ghost use Rattle.std.specs.Prelude.{ℕ};
ghost use Rattle.bx_model.specs.FileTrees.{IsFileTree};
ghost use Rattle.bx_truth.specs.Sample.{sample_tree, sample_truth};
ghost use Rattle.bx_truth.specs.Stands.{StandsFor};

/// There is a truth that stands for a file tree with a directory in the root, in that one a regular file of three pieces of which one
/// is a hole and whose tree has two levels, and besides the files a dead inode.
pub fn a_volume_with_files()
    ensures stands { (volume : ℕ) → StandsFor 1 sample_truth (sample_tree volume) }
    ensures tree { (volume : ℕ) → IsFileTree (sample_tree volume) }
{}
