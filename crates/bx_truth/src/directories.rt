//! Laws of directories and their entries.

ghost use Rattle.bx_model.specs.bx_tree_files.specs.Files.{file_at, with_file};
ghost use Rattle.bx_model.specs.bx_tree_files.specs.declared.file.Body.TheVariants.{Names};
ghost use Rattle.bx_model.specs.bx_tree_files.specs.declared.file.File.{File};
ghost use Rattle.bx_model.specs.bx_tree_files.specs.declared.file.Name.{Name};
ghost use Rattle.bx_model.specs.declared.tree.Tree.{Tree};
ghost use Rattle.bx_page.specs.Contents.{with_entry, value_of};
ghost use Rattle.bx_page.specs.declared.entry.Entry.{Entry};
ghost use Rattle.bx_truth.specs.Edits.{SameSlots, TreeAnew};
ghost use Rattle.bx_truth.specs.PageTrees.{map_without, PageTree, map_of};
ghost use Rattle.bx_truth.specs.Chunks.{chunks_of};
ghost use Rattle.bx_truth.specs.Keys.{name_key, name_value, entry_key, entry_value};
ghost use Rattle.bx_truth.specs.Stands.{StandsFor};
ghost use Rattle.bx_truth.specs.Stored.{AreNames};
ghost use Rattle.bx_views.specs.Truths.{Truth};
ghost use Rattle.std.specs.Prelude.{◌≡◌, ◌≢◌, ◌<◌, ◌^◌, ◌++◌, AllPairs, Contains, ℕ, List, [], ◌∷◌, Some, None};

/// Where a directory's tree has other entries, and all chunks but its pages stay, the truth stands for the tree with that directory
/// anew.
pub fn a_directory_is_anew()
    ensures { (areas : ℕ) (truth now : Truth) (tree : Tree) (handle : ℕ) (file : File) (parent next : ℕ) (names names_now : List Name) (after : PageTree)
        → (is : StandsFor areas truth tree) → file_at tree.files handle ≡ Some file → file.body ≡ Names parent next names
        → SameSlots areas truth now → TreeAnew (chunks_of areas truth) (chunks_of areas now) (is.stored handle).inode.tree (is.stored handle).tree after
        → AreNames (map_of after) names_now
        → StandsFor areas now (record tree { files = with_file tree.files (record file { body = Names parent next names_now }) }) }
{}

/// A directory's entries, once one is put under both its keys, or taken.
pub fn an_entry_has_two_keys()
    ensures added { (map : List Entry) (names : List Name) (name : Name) → AreNames map names → name.number < 2 ^ 32 → name.handle < 2 ^ 64
        → ((other : Name) → Contains names other → other.number < name.number) → value_of map (name_key name.name) ≡ None
        → AreNames (with_entry (with_entry map (name_key name.name) (name_value name.number name.handle)) (entry_key name.number) (entry_value name.handle name.name)) (names ++ name ∷ []) }
    ensures taken { (map : List Entry) (names left : List Name) (name : Name) → AreNames map names → Contains names name
        → ((other : Name) → Contains left other → Contains names other × (other.number ≢ name.number)) → ((other : Name) → Contains names other → other.number ≢ name.number → Contains left other)
        → AllPairs (λ a b. a.number < b.number) left
        → AreNames (map_without (map_without map (name_key name.name)) (entry_key name.number)) left }
{}

/// An entry is added by two entries of the directory's tree, and taken by two that go.
pub fn an_entry_is_put()
    ensures added { (areas : ℕ) (truth mid now : Truth) (tree : Tree) (handle : ℕ) (file : File) (parent next : ℕ) (names : List Name) (n : Name) (one two : PageTree)
        → (is : StandsFor areas truth tree) → file_at tree.files handle ≡ Some file → file.body ≡ Names parent next names
        → AreNames (map_of (is.stored handle).tree) names
        → SameSlots areas truth mid → TreeAnew (chunks_of areas truth) (chunks_of areas mid) (is.stored handle).inode.tree (is.stored handle).tree one
        → map_of one ≡ with_entry (map_of (is.stored handle).tree) (name_key n.name) (name_value n.number n.handle)
        → SameSlots areas mid now → TreeAnew (chunks_of areas mid) (chunks_of areas now) (is.stored handle).inode.tree one two
        → map_of two ≡ with_entry (map_of one) (entry_key n.number) (entry_value n.handle n.name)
        → n.number < 2 ^ 32 → n.handle < 2 ^ 64 → ((other : Name) → Contains names other → other.number < n.number) → value_of (map_of (is.stored handle).tree) (name_key n.name) ≡ None
        → StandsFor areas now (record tree { files = with_file tree.files (record file { body = Names parent next (names ++ n ∷ []) }) }) }
    ensures taken { (areas : ℕ) (truth mid now : Truth) (tree : Tree) (handle : ℕ) (file : File) (parent next : ℕ) (names left : List Name) (n : Name) (one two : PageTree)
        → (is : StandsFor areas truth tree) → file_at tree.files handle ≡ Some file → file.body ≡ Names parent next names
        → AreNames (map_of (is.stored handle).tree) names
        → SameSlots areas truth mid → TreeAnew (chunks_of areas truth) (chunks_of areas mid) (is.stored handle).inode.tree (is.stored handle).tree one
        → map_of one ≡ map_without (map_of (is.stored handle).tree) (name_key n.name)
        → SameSlots areas mid now → TreeAnew (chunks_of areas mid) (chunks_of areas now) (is.stored handle).inode.tree one two
        → map_of two ≡ map_without (map_of one) (entry_key n.number)
        → Contains names n → ((x : Name) → Contains left x → Contains names x × (x.number ≢ n.number)) → ((x : Name) → Contains names x → x.number ≢ n.number → Contains left x)
        → AllPairs (λ a b. a.number < b.number) left
        → StandsFor areas now (record tree { files = with_file tree.files (record file { body = Names parent next left }) }) }
{}

/// A name is looked up by its key.
pub fn a_name_is_found()
    ensures found { (map : List Entry) (names : List Name) (text value : List ℕ) → AreNames map names → value_of map (name_key text) ≡ Some value
        → (n : Name) × Contains names n × (n.name ≡ text) × (value ≡ name_value n.number n.handle) }
    ensures absent { (map : List Entry) (names : List Name) (text : List ℕ) → AreNames map names → value_of map (name_key text) ≡ None → (n : Name) → Contains names n → n.name ≢ text }
{}
