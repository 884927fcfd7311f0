//! What holds of every file tree.

ghost use Rattle.std.specs.Prelude.{◌≡◌, ◌≢◌, ◌==◌, ◌+◌, ◌^◌, ◌<◌, ◌≤◌, ℕ, true, false, List, AllPairs, Contains, None, Some, count_by};
ghost use Rattle.bx_model.specs.declared.call.Call.{Call};
ghost use Rattle.bx_model.specs.bx_tree_files.specs.declared.file.Body.TheVariants.{Names};
ghost use Rattle.bx_model.specs.bx_tree_files.specs.declared.file.File.{File};
ghost use Rattle.bx_model.specs.bx_tree_files.specs.declared.file.Name.{Name};
ghost use Rattle.bx_model.specs.declared.reply.Reply.{Reply};
ghost use Rattle.bx_model.specs.declared.tree.Tree.{Tree};
ghost use Rattle.bx_model.specs.Act.{act};
ghost use Rattle.bx_model.specs.bx_tree_files.specs.Files.{file_at, is_directory};
ghost use Rattle.bx_model.specs.FileTrees.{IsFileTree, is_directory_at, links_to};
ghost use Rattle.bx_model.specs.bx_tree_files.specs.Entries.{is_bad};
ghost use Rattle.bx_model.specs.bx_tree_files.specs.Names.{names_of, next_of};
ghost use Rattle.bx_tree_laws.specs.Acting.{PathFits};
ghost use Rattle.bx_model.specs.Opening.{opening};
ghost use Rattle.bx_tree_laws.specs.Telling.{HandlesFit};
ghost use Rattle.bx_tree_laws.specs.Ways.{IsIn, LeadsDown};

/// Handles tell files apart: no two files have one, and each file is found by its own.
pub fn handles_tell_files_apart()
    ensures apart { (tree : Tree) → IsFileTree tree → AllPairs (λ file later. file.handle ≢ later.handle) tree.files }
    ensures one { (tree : Tree) (file other : File) → IsFileTree tree → Contains tree.files file → Contains tree.files other → file.handle ≡ other.handle → file ≡ other }
    ensures found { (tree : Tree) (file : File) → IsFileTree tree → Contains tree.files file → file_at tree.files file.handle ≡ Some file }
{}

/// Handles are numbers of 64 bits: the root's is, and every step leaves them so where a new file's is one.
pub fn handles_have_64_bits()
    ensures opening { (volume : ℕ) → HandlesFit (opening volume) }
    ensures step { (tree : Tree) (call : Call) (moment spare made : ℕ) (reply : Reply) (next : Tree) → IsFileTree tree → PathFits call.args → HandlesFit tree → made < 2 ^ 64
        → act tree call moment spare made ≡ Some (reply, next) → HandlesFit next }
{}

/// A handle that was given out never comes back: it stays among those given out, where each file's is, and no step makes a file of it.
pub fn no_handle_comes_back()
    ensures given { (tree : Tree) (handle : ℕ) (file : File) → IsFileTree tree → file_at tree.files handle ≡ Some file → Contains tree.given handle }
    ensures stays { (tree : Tree) (call : Call) (moment spare made : ℕ) (reply : Reply) (next : Tree) (handle : ℕ) → IsFileTree tree → PathFits call.args
        → act tree call moment spare made ≡ Some (reply, next) → Contains tree.given handle → Contains next.given handle }
    ensures gone { (tree : Tree) (call : Call) (moment spare made : ℕ) (reply : Reply) (next : Tree) (handle : ℕ) → IsFileTree tree → PathFits call.args
        → act tree call moment spare made ≡ Some (reply, next) → Contains tree.given handle → file_at tree.files handle ≡ None → file_at next.files handle ≡ None }
{}

/// The root is a directory, its own parent, and no step moves it.
pub fn the_root_stays()
    ensures there { (tree : Tree) → IsFileTree tree → (file : File) × (next : ℕ) × (names : List Name) × (file_at tree.files tree.root ≡ Some file) × (file.body ≡ Names tree.root next names) }
    ensures stays { (tree : Tree) (call : Call) (moment spare made : ℕ) (reply : Reply) (next : Tree) → IsFileTree tree → PathFits call.args
        → act tree call moment spare made ≡ Some (reply, next) → next.root ≡ tree.root }
{}

/// Every entry names a file that is there.
pub fn entries_name_files()
    ensures { (tree : Tree) (directory : ℕ) (file : File) (entry : Name) → IsFileTree tree → file_at tree.files directory ≡ Some file → Contains (names_of file.body) entry
        → (other : File) × (file_at tree.files entry.handle ≡ Some other) }
{}

/// A regular file or a link has as many links as entries name it; a directory has 2, and one for each directory in it.
pub fn links_are_counted()
    ensures file { (tree : Tree) (handle : ℕ) (file : File) → IsFileTree tree → file_at tree.files handle ≡ Some file → is_directory file ≡ false → file.nlink ≡ links_to tree.files handle }
    ensures directory { (tree : Tree) (handle : ℕ) (file : File) (parent next : ℕ) (names : List Name) → IsFileTree tree → file_at tree.files handle ≡ Some file
        → file.body ≡ Names parent next names → file.nlink ≡ 2 + count_by (λ entry. is_directory_at tree.files entry.handle) names }
{}

/// A directory is named by one entry, of its parent; the root by none. Every other file has a name.
pub fn a_directory_has_one_name()
    ensures root { (tree : Tree) → IsFileTree tree → links_to tree.files tree.root ≡ 0 }
    ensures one { (tree : Tree) (handle : ℕ) (file : File) → IsFileTree tree → file_at tree.files handle ≡ Some file → is_directory file ≡ true → handle ≢ tree.root → links_to tree.files handle ≡ 1 }
    ensures parent { (tree : Tree) (handle : ℕ) (file : File) (parent next : ℕ) (names : List Name) (directory : ℕ) → IsFileTree tree → file_at tree.files handle ≡ Some file
        → file.body ≡ Names parent next names → IsIn tree.files directory handle → parent ≡ directory }
    ensures named { (tree : Tree) (handle : ℕ) (file : File) → IsFileTree tree → file_at tree.files handle ≡ Some file → handle ≢ tree.root → 1 ≤ links_to tree.files handle }
{}

/// No directory is below itself, and every file but the root is below the root.
pub fn no_directory_is_below_itself()
    ensures itself { (tree : Tree) (directory : ℕ) (way : List ℕ) → IsFileTree tree → ¬ (LeadsDown tree.files directory way directory) }
    ensures root { (tree : Tree) (handle : ℕ) (file : File) → IsFileTree tree → file_at tree.files handle ≡ Some file → handle ≢ tree.root
        → (way : List ℕ) × LeadsDown tree.files tree.root way handle }
{}

/// Of a directory's entries no two have one name, their numbers rise, from 3 on, below the number of its next entry, and no name is bad.
pub fn entries_are_numbered()
    ensures names { (tree : Tree) (directory : ℕ) (file : File) → IsFileTree tree → file_at tree.files directory ≡ Some file → AllPairs (λ entry later. entry.name ≢ later.name) (names_of file.body) }
    ensures rise { (tree : Tree) (directory : ℕ) (file : File) → IsFileTree tree → file_at tree.files directory ≡ Some file → AllPairs (λ entry later. entry.number < later.number) (names_of file.body) }
    ensures least { (tree : Tree) (directory : ℕ) (file : File) (entry : Name) → IsFileTree tree → file_at tree.files directory ≡ Some file → Contains (names_of file.body) entry → 3 ≤ entry.number }
    ensures next { (tree : Tree) (directory : ℕ) (file : File) (entry : Name) → IsFileTree tree → file_at tree.files directory ≡ Some file → Contains (names_of file.body) entry → entry.number < next_of file.body }
    ensures good { (tree : Tree) (directory : ℕ) (file : File) (entry : Name) → IsFileTree tree → file_at tree.files directory ≡ Some file → Contains (names_of file.body) entry → is_bad entry.name ≡ false }
{}
