//! Laws of splits.

ghost use Rattle.std.specs.Prelude.{◌≡◌, ◌≢◌, ℕ, ◌+◌, ◌<◌, ◌≤◌, ◌⊎◌, List, [], length, Some};
ghost use Rattle.std.specs.Int.{w64, to_be_bytes};
ghost use Rattle.bx_base.specs.declared.names.Mode.TheVariants.{Shared, Exclusive};
ghost use Rattle.bx_layout.specs.declared.block.Block.{Block};
ghost use Rattle.bx_layout.specs.declared.area.AreaBlock.{AreaBlock};
ghost use Rattle.bx_records.specs.Drafts.{Changed};
ghost use Rattle.bx_page.specs.Contents.{Contents, first_half, other_half, size, with_value};
ghost use Rattle.bx_truth.specs.Chunks.{IsSlot};
ghost use Rattle.bx_truth.specs.PageTrees.{Node, PageTree, IsIn, IsPageOf, map_of};
ghost use Rattle.bx_truth.specs.Slots.{TakesSlot};
ghost use Rattle.bx_views.specs.Truths.{Truth, Held, Hints, with_draft};
ghost use Rattle.bx_blink.specs.Hints.{Under};
ghost use Rattle.bx_blink.specs.Places.{IsPlaceOf};
ghost use Rattle.bx_blink.specs.Walks.{reads_with};
ghost use Rattle.bx_leaves.specs.Changes.{MakesMap};
ghost use Rattle.bx_leaves.specs.Leaves.{PutsPage, RefusesEntry};
ghost use Rattle.bx_splits.specs.Cutting.{IsOwnPage};
ghost use Rattle.bx_splits.specs.Splits.{GrowsTree, root_page};

/// A page that isn't the root is cut in two: a slot is taken, the page with the other half is put under its handle, and the page with the
/// first half in the page's place. The tree gets that one page, and keeps its map.
pub fn a_page_is_cut()
    ensures { (areas : ℕ) (held : Held) (hints : Hints) (truth : Truth) (old one two new : List Changed) (root : ℕ) (tree : PageTree) (node : Node) (block : ℕ) (slots : AreaBlock)
        → Under areas held hints truth old root tree → IsPageOf tree node → node.handle ≢ root → 2 ≤ length node.page.entries
        → IsSlot areas block → TakesSlot (with_draft truth old) (with_draft truth one) block slots
        → PutsPage one two (with_draft truth one block).handle (other_half node.page) → PutsPage two new node.handle (first_half node.page (with_draft truth one block).handle)
        → GrowsTree areas held hints truth old new root tree node.handle (λ handle. handle ≡ (with_draft truth one block).handle) }
{}

/// The root is cut in two: two slots are taken, the pages with the halves are put under their handles, and in the root's place a page of
/// the next level, with an entry for each of them. The tree gets these two pages, and keeps its map.
pub fn the_root_is_cut()
    ensures { (areas : ℕ) (held : Held) (hints : Hints) (truth : Truth) (old one two three four new : List Changed) (root : ℕ) (tree : PageTree) (node : Node) (middle : List ℕ) (a b : ℕ) (slots slots_then : AreaBlock)
        → Under areas held hints truth old root tree → IsPageOf tree node → node.handle ≡ root → 2 ≤ length node.page.entries
        → (first_half node.page (with_draft truth two b).handle).high ≡ Some middle
        → IsSlot areas a → TakesSlot (with_draft truth old) (with_draft truth one) a slots
        → IsSlot areas b → TakesSlot (with_draft truth one) (with_draft truth two) b slots_then
        → PutsPage two three (with_draft truth one a).handle (first_half node.page (with_draft truth two b).handle)
        → PutsPage three four (with_draft truth two b).handle (other_half node.page)
        → PutsPage four new root (root_page node.page (with_draft truth one a).handle (with_draft truth two b).handle middle)
        → GrowsTree areas held hints truth old new root tree root (λ handle. (handle ≡ (with_draft truth one a).handle) ⊎ (handle ≡ (with_draft truth two b).handle)) }
{}

/// A leaf that refuses an entry for want of room, over an empty draft, meets what `split` asks for.
pub fn a_full_leaf_may_be_split()
    ensures { (held : Held) (hints : Hints) (root : ℕ) (key value : List ℕ) (handle : ℕ) → ((at : ℕ) (block : Block) → held at Exclusive ≡ Some block → held at Shared ≡ Some block) → length key + length value ≤ 268
        → RefusesEntry held (reads_with held hints []) root key value handle → (contents : Contents) → IsOwnPage (reads_with held hints []) handle contents → 4096 < size contents + 544 }
{}

/// A separator is posted: into the page of the next level in whose range the high key of a page is, an entry is put for that key, which
/// names the page's right neighbour. The tree keeps its map, and one page is rewritten.
pub fn a_separator_is_posted()
    ensures { (areas : ℕ) (held : Held) (hints : Hints) (truth : Truth) (old new : List Changed) (root : ℕ) (tree : PageTree) (level : ℕ) (node : Node) (high : List ℕ) (handle : ℕ) (page : Contents)
        → Under areas held hints truth old root tree → level < tree.height → IsIn node (tree.level level) → node.page.high ≡ Some high
        → IsPlaceOf tree (level + 1) high handle page → PutsPage old new handle (with_value page high (to_be_bytes w64 node.page.right))
        → MakesMap areas held hints truth old new root tree (map_of tree) }
{}
