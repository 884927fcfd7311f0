//! Laws of what a truth stands for.

ghost use Rattle.bx_views.specs.bx_layout.specs.declared.block.Block.{Block};
ghost use Rattle.bx_model.specs.bx_tree_files.specs.Files.{file_at};
ghost use Rattle.bx_model.specs.Listing.{listing};
ghost use Rattle.bx_model.specs.Opening.{opening};
ghost use Rattle.bx_model.specs.bx_tree_files.specs.declared.file.File.{File};
ghost use Rattle.bx_model.specs.bx_tree_files.specs.declared.file.Name.{Name};
ghost use Rattle.bx_model.specs.declared.tree.Tree.{Tree};
ghost use Rattle.bx_page.specs.declared.entry.Entry.{Entry};
ghost use Rattle.bx_truth.specs.Chunks.{IsChunked, IsName, block_at, chunks_of, is_free_at};
ghost use Rattle.bx_views.specs.bx_layout.specs.Blocks.{HasParts};
ghost use Rattle.bx_places.specs.Places.{IsBlock};
ghost use Rattle.bx_truth.specs.Opening.{opening_truth};
ghost use Rattle.bx_truth.specs.Stands.{IsOwned, AreFiles, StandsFor, StaysBut, inode_of};
ghost use Rattle.bx_truth.specs.Stored.{AreNames, Owner, Inodes, Stored};
ghost use Rattle.bx_truth.specs.PageTrees.{Chunks};
ghost use Rattle.bx_truth.specs.Truth.{AreSame};
ghost use Rattle.bx_views.specs.Truths.{Truth};
ghost use Rattle.std.specs.Prelude.{◌≡◌, ◌≢◌, ℕ, ◌≤◌, Bool, true, false, List, Some, None, ◌<◌, ◌^◌};

/// A volume that was just made has blocks only, and stands for the tree that has the root alone.
pub fn a_new_volume()
    ensures blocks { (areas at : ℕ) → areas ≤ 64 → IsBlock areas at → HasParts (opening_truth at) }
    ensures chunked { (areas : ℕ) → IsChunked areas opening_truth }
    ensures tree { (areas volume : ℕ) → 1 ≤ areas → StandsFor areas opening_truth (record (opening volume) { areas = areas }) }
{}

/// A truth stands for one tree, but for the handles that were given out once: of these it tells only bounds. So it has one listing.
pub fn one_tree()
    ensures files { (areas : ℕ) (truth : Truth) (a b : Tree) → StandsFor areas truth a → StandsFor areas truth b → a.files ≡ b.files }
    ensures areas { (areas : ℕ) (truth : Truth) (a b : Tree) → StandsFor areas truth a → StandsFor areas truth b → a.areas ≡ b.areas }
    ensures root { (areas : ℕ) (truth : Truth) (a b : Tree) → StandsFor areas truth a → StandsFor areas truth b → a.root ≡ b.root }
    ensures listing { (areas : ℕ) (truth : Truth) (a b : Tree) → StandsFor areas truth a → StandsFor areas truth b → listing a ≡ listing b }
{}

/// The entries of a directory's tree are one list of names.
pub fn one_list_of_names()
    ensures { (entries : List Entry) (xs ys : List Name) → AreNames entries xs → AreNames entries ys → xs ≡ ys }
{}

/// The tree of a truth depends on the blocks of the volume alone.
pub fn other_blocks_do_not_matter()
    ensures { (areas : ℕ) (truth other : Truth) (tree : Tree) → AreSame areas truth other → StandsFor areas truth tree → StandsFor areas other tree }
{}

/// Where the chunks of all but some inodes stay, with their owners, the other files stay too: there are the same files, once those of
/// these inodes are shown anew.
pub fn other_files_stay()
    ensures { (named : ℕ → Bool) (chunks now : Chunks) (owner owner_now : ℕ → Owner) (stored stored_now : ℕ → Stored) (files files_now : List File)
        → AreFiles chunks owner stored files → StaysBut named chunks owner now owner_now
        → ((handle : ℕ) → named handle ≡ false → stored_now handle ≡ stored handle)
        → ((handle : ℕ) → named handle ≡ false → file_at files_now handle ≡ file_at files handle)
        → ((handle : ℕ) (block : Block) → now handle ≡ Some block → named (inode_of handle (owner_now handle)) ≡ true → IsOwned now owner_now stored_now files_now handle block (owner_now handle))
        → ((handle : ℕ) (file : File) → named handle ≡ true → file_at files_now handle ≡ Some file → (owner_now handle ≡ Inodes) × (now handle ≢ None))
        → AreFiles now owner_now stored_now files_now }
{}

/// What is in use is a slot's of the volume, under a handle that isn't 0 and has 64 bits, and a free slot's block is under none.
pub fn what_is_in_use_has_a_name()
    ensures name { (areas : ℕ) (truth : Truth) (tree : Tree) (handle : ℕ) (block : Block) → StandsFor areas truth tree → chunks_of areas truth handle ≡ Some block → IsName areas handle }
    ensures fits { (areas : ℕ) (truth : Truth) (handle : ℕ) (block : Block) → areas ≤ 64 → chunks_of areas truth handle ≡ Some block → handle < 2 ^ 64 }
    ensures free { (areas : ℕ) (truth : Truth) (block handle : ℕ) → is_free_at truth block ≡ true → block_at handle ≡ block → chunks_of areas truth handle ≡ None }
{}
