//! Laws of edits of one file.

ghost use Rattle.bx_views.specs.bx_layout.specs.declared.block.Block.{Block};
ghost use Rattle.bx_views.specs.bx_layout.specs.declared.inode.Inode.{Inode};
ghost use Rattle.bx_model.specs.bx_tree_files.specs.Files.{file_at, with_file};
ghost use Rattle.bx_model.specs.Opening.{root_handle};
ghost use Rattle.bx_model.specs.bx_tree_files.specs.declared.file.Body.TheVariants.{Path, Bytes};
ghost use Rattle.bx_model.specs.bx_tree_files.specs.declared.file.File.{File};
ghost use Rattle.bx_model.specs.declared.tree.Tree.{Tree};
ghost use Rattle.bx_truth.specs.Dying.{IsShownDead, MarksSlot, without_file};
ghost use Rattle.bx_truth.specs.Edits.{SameSlots, ChunkAnew};
ghost use Rattle.bx_truth.specs.Making.{MakesOne, MakesTwo, IsEmptyBody};
ghost use Rattle.bx_truth.specs.Pieces.{PutsPiece, CutsPiece, pieces_with, pieces_without};
ghost use Rattle.bx_truth.specs.Shown.{IsShown, KeepsSlots, IsNoDead, KeepsOthers};
ghost use Rattle.bx_truth.specs.Chunks.{chunks_of, block_at};
ghost use Rattle.bx_truth.specs.Opening.{empty_page};
ghost use Rattle.bx_truth.specs.Rewritten.{KeepsBody};
ghost use Rattle.bx_truth.specs.Stands.{StandsFor};
ghost use Rattle.bx_truth.specs.Stored.{AreBytesOf, Owner, Stored, HasFields, HasInode, HasBody};
ghost use Rattle.bx_truth.specs.PageTrees.{PageTree, HasPage, map_of};
ghost use Rattle.bx_truth.specs.Keys.{content_key, content_value};
ghost use Rattle.bx_page.specs.Contents.{value_of};
ghost use Rattle.bx_views.specs.Truths.{Truth, with_draft};
ghost use Rattle.std.specs.Prelude.{true, ◌≡◌, ◌≢◌, ℕ, Some, ◌<◌, ◌≤◌, List, [], ◌∷◌, ◌^◌, Contains, ◌⊎◌};

/// Each file of the tree is shown; and where one file is shown anew or for the first time, and all else stays, the truth stands for
/// the tree with that file.
pub fn a_file_is_put()
    ensures shown { (areas : ℕ) (truth : Truth) (tree : Tree) (handle : ℕ) (file : File) (is : StandsFor areas truth tree) → file_at tree.files handle ≡ Some file
        → IsShown (chunks_of areas truth) is.owner handle (is.stored handle) file }
    ensures put { (areas : ℕ) (truth now : Truth) (tree : Tree) (handle : ℕ) (file : File) (owner_now : ℕ → Owner) (stored_now : Stored) (is : StandsFor areas truth tree)
        → KeepsSlots areas truth now → KeepsOthers areas truth now tree is owner_now handle → IsNoDead areas truth tree is handle
        → IsShown (chunks_of areas now) owner_now handle stored_now file
        → StandsFor areas now (record tree { files = with_file tree.files file }) }
{}

/// Where a file's inode is rewritten and its body stays, the truth stands for the tree with that file anew.
pub fn an_inode_is_rewritten()
    ensures { (areas : ℕ) (truth : Truth) (tree : Tree) (handle : ℕ) (block after : Block) (file file_now : File) (old new : Inode)
        → StandsFor areas truth tree → chunks_of areas truth handle ≡ Some block → file_at tree.files handle ≡ Some file
        → HasInode old block → HasInode new after → after.handle ≡ block.handle → KeepsBody old new
        → HasFields new file_now → file_now.handle ≡ handle → file_now.body ≡ file.body
        → StandsFor areas (with_draft truth ((block_at handle, after) ∷ [])) (record tree { files = with_file tree.files file_now }) }
{}

/// Where a file's inode is another one with the same tree, and all other chunks stay, the truth stands for the tree with that file
/// anew.
pub fn an_inode_is_anew()
    ensures { (areas : ℕ) (truth now : Truth) (tree : Tree) (handle : ℕ) (file file_now : File) (new : Inode) (after : Block)
        → (is : StandsFor areas truth tree) → file_at tree.files handle ≡ Some file
        → SameSlots areas truth now → ChunkAnew (chunks_of areas truth) (chunks_of areas now) handle after
        → HasInode new after → new.tree ≡ (is.stored handle).inode.tree → file_now.handle ≡ handle → HasFields new file_now
        → HasBody (chunks_of areas truth) is.owner handle (record { inode = new; tree = (is.stored handle).tree }) file_now.body
        → StandsFor areas now (record tree { files = with_file tree.files file_now }) }
{}

/// Where two handles that named nothing name an inode and the one page of its tree, the truth stands for the tree with that file, which
/// is empty, and its handle was given out.
pub fn a_file_is_made()
    ensures { (areas : ℕ) (truth now : Truth) (tree : Tree) (handle page : ℕ) (block page_block : Block) (inode : Inode) (file : File) → StandsFor areas truth tree
        → KeepsSlots areas truth now → MakesTwo (chunks_of areas truth) (chunks_of areas now) handle page block page_block
        → HasInode inode block → HasPage empty_page page_block → inode.tree ≡ page → page ≢ 0
        → file.handle ≡ handle → HasFields inode file → IsEmptyBody inode file.body
        → (given : List ℕ) → ((other : ℕ) → Contains given other → (other ≡ handle) ⊎ Contains tree.given other)
        → StandsFor areas now (record tree { files = with_file tree.files file; given = given }) }
{}

/// Where a handle that named nothing names a link's inode, the truth stands for the tree with that link, and its handle was given out.
pub fn a_link_is_made()
    ensures { (areas : ℕ) (truth now : Truth) (tree : Tree) (handle : ℕ) (block : Block) (inode : Inode) (file : File) (path : List ℕ) → StandsFor areas truth tree
        → KeepsSlots areas truth now → MakesOne (chunks_of areas truth) (chunks_of areas now) handle block
        → HasInode inode block → inode.kind ≡ 5 → inode.tree ≡ 0 → inode.path ≡ path
        → file.handle ≡ handle → HasFields inode file → file.body ≡ Path path
        → (given : List ℕ) → ((other : ℕ) → Contains given other → (other ≡ handle) ⊎ Contains tree.given other)
        → StandsFor areas now (record tree { files = with_file tree.files file; given = given }) }
{}

/// Where a file's inode becomes a dead one whose slot is marked, and all else stays, the truth stands for the tree without that file.
pub fn a_file_dies()
    ensures { (areas : ℕ) (truth now : Truth) (tree : Tree) (handle : ℕ) (owner_now : ℕ → Owner) (stored_now : Stored) (is : StandsFor areas truth tree)
        → MarksSlot areas truth now handle true → KeepsOthers areas truth now tree is owner_now handle → handle ≢ root_handle
        → IsShownDead (chunks_of areas now) owner_now handle stored_now
        → StandsFor areas now (record tree { files = without_file tree.files handle }) }
{}

/// Where a regular file has another piece, in the place of one or anew, and all chunks but this and the file's pages stay, the truth
/// stands for the tree with the bytes that the pieces then are.
pub fn a_piece_is_put()
    ensures { (areas : ℕ) (truth now : Truth) (tree : Tree) (handle : ℕ) (file : File) (bytes bytes_now : List ℕ) (after : PageTree) (index names : ℕ) (block : Block)
        → (is : StandsFor areas truth tree) → file_at tree.files handle ≡ Some file → file.body ≡ Bytes bytes
        → KeepsSlots areas truth now
        → PutsPiece (chunks_of areas truth) (chunks_of areas now) is.owner handle (is.stored handle) after index names block
        → AreBytesOf (pieces_with (chunks_of areas truth) (is.stored handle) index block) (is.stored handle).inode.size (is.stored handle).inode.tail bytes_now
        → (is.stored handle).inode.size ≤ 2 ^ 32 → areas ≤ 64
        → StandsFor areas now (record tree { files = with_file tree.files (record file { body = Bytes bytes_now }) }) }
{}

/// Where the block of a regular file's piece is rewritten in its place, the truth stands for the tree with the bytes that the pieces
/// then are.
pub fn a_piece_is_rewritten()
    ensures { (areas : ℕ) (truth : Truth) (tree : Tree) (handle : ℕ) (file : File) (bytes bytes_now : List ℕ) (index names : ℕ) (block : Block)
        → areas ≤ 64 → (is : StandsFor areas truth tree) → file_at tree.files handle ≡ Some file → file.body ≡ Bytes bytes
        → index < 2 ^ 32 → names < 2 ^ 64 → value_of (map_of (is.stored handle).tree) (content_key index) ≡ Some (content_value names)
        → block.kind ≡ 3 → block.handle ≡ names
        → AreBytesOf (pieces_with (chunks_of areas truth) (is.stored handle) index block) (is.stored handle).inode.size (is.stored handle).inode.tail bytes_now
        → (is.stored handle).inode.size ≤ 2 ^ 32
        → StandsFor areas (with_draft truth ((block_at names, block) ∷ [])) (record tree { files = with_file tree.files (record file { body = Bytes bytes_now }) }) }
{}

/// Where a regular file has a piece less, and all chunks but this and the file's pages stay, the truth stands for the tree with the
/// bytes that the pieces then are: of a piece behind the size, the same bytes.
pub fn a_piece_is_cut()
    ensures { (areas : ℕ) (truth now : Truth) (tree : Tree) (handle : ℕ) (file : File) (bytes bytes_now : List ℕ) (after : PageTree) (index names : ℕ)
        → (is : StandsFor areas truth tree) → file_at tree.files handle ≡ Some file → file.body ≡ Bytes bytes
        → KeepsSlots areas truth now
        → CutsPiece (chunks_of areas truth) (chunks_of areas now) (is.stored handle) after index names
        → AreBytesOf (pieces_without (chunks_of areas truth) (is.stored handle) index) (is.stored handle).inode.size (is.stored handle).inode.tail bytes_now
        → (is.stored handle).inode.size ≤ 2 ^ 32 → areas ≤ 64
        → StandsFor areas now (record tree { files = with_file tree.files (record file { body = Bytes bytes_now }) }) }
{}
