//! Page trees.

ghost use Rattle.std.specs.Prelude.{◌≡◌, ◌<◌, ◌+◌, ℕ, List, [], ◌∷◌, length, slice_index_or, IfOk, IfSome, IfNone, IsErrOf};
ghost use Rattle.bx_truth.specs.PageTrees.{Chunks, Node, PageTree, IsLevel, IsTree, map_of};
ghost use Rattle.std.specs.Option.{option_copied};
ghost use Rattle.bx_page.specs.Contents.{value_of};
ghost use Rattle.bx_audit_pages.specs.Pages.{BeginningsRise};
ghost use Rattle.bx_audit_pages.specs.declared.error.AuditError.TheVariants.{Fault as DiskFailed};
ghost use Rattle.bx_audit_pages.specs.Errors.{IfTorn};
ghost use Rattle.bx_audit_pages.specs.Leading.{AreLedTo, IsLedTo};
ghost use Rattle.bx_audit_pages.specs.Shown.{Shows};
ghost use Rattle.bx_audit_pages.specs.Torn.{AreUnder, IsChildless, IsTornPage};
ghost use Rattle.bx_audit_pages.specs.Trees.{HasFirst, IsTop, LiesBelow, NamesFirst, tree_of};
ghost use Rattle.bx_audit_pages.specs.Reading.{ReadsChunks, StillShows};
ghost use Rattle.bx_homes.specs.Reading.{CanRead};

use crate::children::{handle_in, lead_down};
use crate::error::AuditError;
use crate::leaves::leaf_for;
use crate::levels::level_from;
use crate::pages::{TreePage, page_at, torn_at, way_of};
use bx_base::{OutOfMemory, Raw};
use bx_homes::Blocks;
use bx_page::Page;
use std::alloc::Global;
use std::marker::Model;

/// The pages of a level, from the left.
#[derive(Drop)]
pub struct Level {
    pages: Vec<TreePage>,
}

impl Model for Level {
    ghost use Rattle.std.specs.Prelude.{List};
    ghost use Rattle.bx_truth.specs.PageTrees.{Node};

    ghost Value = { List Node };

    ghost view = { λ level. level.pages.items };
}

/// A page tree that was read. Contracts see it as its levels, that of the leaves first.
#[derive(Drop)]
pub struct ReadTree {
    /// The levels above the leaves, from that of the root down.
    upper: Vec<Level>,
    leaves: Level,
}

impl Model for ReadTree {
    ghost use Rattle.std.specs.Prelude.{List, ◌∷◌, reverse};
    ghost use Rattle.bx_truth.specs.PageTrees.{Node};
    ghost use Rattle.bx_audit_pages.specs.Pages.{BeginningsRise};

    ghost Value = { List (List Node) };

    ghost view = { λ tree. tree.leaves ∷ reverse tree.upper.items };

    ghost invariant = { λ tree. BeginningsRise tree.leaves };
}

impl ReadTree {
    /// How many levels there are.
    pub fn levels(&self) -> usize
        ensures { result ≡ length self.now }
    {
        self.upper.len() + 1
    }

    /// The pages of a level, counted from 0 for the leaves, from the left.
    pub fn level(&self, at: usize) -> &[TreePage]
        requires { at < length self.now }
        ensures { result.now ≡ slice_index_or self.now at [] }
    {
        if at == 0 {
            return &self.leaves.pages;
        }
        &self.upper[self.upper.len() - at].pages
    }

    /// The leaves, from the left.
    pub fn leaves(&self) -> &[TreePage]
        ensures leaves { result.now ≡ slice_index_or self.now 0 [] }
        ensures rise { BeginningsRise result.now }
    {
        &self.leaves.pages
    }

    /// The value of a key; `None` exactly where the key isn't there.
    pub fn get(&self, key: &[u8]) -> Option<&[u8]>
        ensures { (chunks : Chunks) (root : ℕ) → IsTree chunks root (tree_of self.now) → option_copied result ≡ value_of (map_of (tree_of self.now)) key.now }
    {
        let leaf = leaf_for(self.leaves(), key)?;
        leaf.page.get(key)
    }
}

/// The tree under a root; torn exactly where there is none: of a page that is wrong.
pub fn tree_under<B: Blocks>(
    alloc: Global,
    blocks: &mut B,
    areas: u16,
    root: u64,
) -> Result<ReadTree, AuditError>
    requires blocks { CanRead B.Blocks areas blocks.old }
    ensures ok { (chunks : Chunks) → Shows (B.tells blocks.old) areas (B.stands blocks.old) chunks → IfOk result (λ tree. IsTree chunks root (tree_of tree)) }
    ensures torn { (chunks : Chunks) → Shows (B.tells blocks.old) areas (B.stands blocks.old) chunks → IfTorn result (λ at found wanted. (tree : PageTree) → IsTree chunks root tree → ⊥) }
    ensures led { (chunks : Chunks) → Shows (B.tells blocks.old) areas (B.stands blocks.old) chunks → IfOk result (λ tree. AreLedTo chunks root (slice_index_or tree 0 [])) }
    ensures leads { (chunks : Chunks) → Shows (B.tells blocks.old) areas (B.stands blocks.old) chunks → IfTorn result (λ at found wanted. IsLedTo chunks root wanted) }
    ensures wrong { (chunks : Chunks) → Shows (B.tells blocks.old) areas (B.stands blocks.old) chunks → IfTorn result (λ at found wanted. IsTornPage chunks root wanted) }
    ensures shows { StillShows B.Blocks areas blocks.old blocks.new }
    ensures blocks { ReadsChunks B.Blocks blocks.old blocks.new result }
{
    let (top, height) = root_page(alloc, blocks, areas, root)?;
    let mut levels = Vec::new(alloc);
    let mut lowest = Level { pages: top };
    let mut level = height;
    while level > 0 {
        let below = level_below(alloc, blocks, areas, level - 1, &lowest.pages)?;
        levels.push(lowest)?;
        lowest = Level { pages: below };
        level -= 1;
    }
    Ok(ReadTree {
        upper: levels,
        leaves: lowest,
    })
}

/// The page under a root, as the one page of its level, and that level.
fn root_page<B: Blocks>(
    alloc: Global,
    blocks: &mut B,
    areas: u16,
    root: u64,
) -> Result<(Vec<TreePage>, u16), AuditError>
    requires blocks { CanRead B.Blocks areas blocks.old }
    ensures ok { (chunks : Chunks) → Shows (B.tells blocks.old) areas (B.stands blocks.old) chunks → IfOk result (λ x. IsTop chunks root x.1 x.0.items) }
    ensures rise { IfOk result (λ x. BeginningsRise x.0.items) }
    ensures led { (chunks : Chunks) → IfOk result (λ x. AreLedTo chunks root x.0.items) }
    ensures names { IfTorn result (λ at found wanted. wanted ≡ root) }
    ensures torn { (chunks : Chunks) → Shows (B.tells blocks.old) areas (B.stands blocks.old) chunks → IfTorn result (λ at found wanted. (tree : PageTree) → IsTree chunks root tree → ⊥) }
    ensures wrong { (chunks : Chunks) → Shows (B.tells blocks.old) areas (B.stands blocks.old) chunks → IfTorn result (λ at found wanted. IsTornPage chunks root wanted) }
    ensures shows { StillShows B.Blocks areas blocks.old blocks.new }
    ensures blocks { ReadsChunks B.Blocks blocks.old blocks.new result }
{
    let page = page_at(alloc, blocks, areas, root)?;
    let level = page.level();
    if let Some(_) = way_of(alloc, &page, root, level, &[])? {
        return Err(torn_at(root));
    }
    let pages = one_page(alloc, root, page)?;
    Ok((pages, level))
}

/// A page, with its handle, that is alone on its level.
fn one_page(alloc: Global, handle: u64, page: Page) -> Result<Vec<TreePage>, OutOfMemory>
    ensures { IfOk result (λ pages. pages.items ≡ record { handle = handle; begins = []; page = page } ∷ []) }
{
    let begins = Raw::of(alloc, &[])?;
    let mut pages = Vec::new(alloc);
    pages.push(TreePage {
        handle,
        begins,
        page,
    })?;
    Ok(pages)
}

/// The level below the pages of another one. Torn exactly where none lies below them.
fn level_below<B: Blocks>(
    alloc: Global,
    blocks: &mut B,
    areas: u16,
    level: u16,
    above: &[TreePage],
) -> Result<Vec<TreePage>, AuditError>
    requires blocks { CanRead B.Blocks areas blocks.old }
    ensures ok { (chunks : Chunks) → Shows (B.tells blocks.old) areas (B.stands blocks.old) chunks → IsLevel chunks (level + 1) above.now → IfOk result (λ pages. LiesBelow chunks level above.now pages.items) }
    ensures rise { IfOk result (λ pages. BeginningsRise pages.items) }
    ensures led { (chunks : Chunks) (root : ℕ) → Shows (B.tells blocks.old) areas (B.stands blocks.old) chunks → IsLevel chunks (level + 1) above.now → AreLedTo chunks root above.now → IfOk result (λ pages. AreLedTo chunks root pages.items) }
    ensures leads { (chunks : Chunks) (root : ℕ) → Shows (B.tells blocks.old) areas (B.stands blocks.old) chunks → IsLevel chunks (level + 1) above.now → AreLedTo chunks root above.now → IfTorn result (λ at found wanted. IsLedTo chunks root wanted) }
    ensures wrong { (chunks : Chunks) (root : ℕ) → Shows (B.tells blocks.old) areas (B.stands blocks.old) chunks → AreUnder chunks root (level + 1) above.now
        → IfTorn result (λ at found wanted. IsTornPage chunks root wanted) }
    ensures one { (chunks : Chunks) → Shows (B.tells blocks.old) areas (B.stands blocks.old) chunks → IsLevel chunks (level + 1) above.now → IfOk result (λ pages. (nodes : List Node) → LiesBelow chunks level above.now nodes → nodes ≡ pages.items) }
    ensures torn { (chunks : Chunks) → Shows (B.tells blocks.old) areas (B.stands blocks.old) chunks → IsLevel chunks (level + 1) above.now → IfTorn result (λ at found wanted. (nodes : List Node) → LiesBelow chunks level above.now nodes → ⊥) }
    ensures shows { StillShows B.Blocks areas blocks.old blocks.new }
    ensures blocks { ReadsChunks B.Blocks blocks.old blocks.new result }
{
    let first = first_child(above)?;
    let pages = level_from(alloc, blocks, areas, level, first)?;
    lead_down(above, &pages)?;
    Ok(pages)
}

/// The handle that the first entry of the first of some pages names. Torn exactly where there is no such entry.
fn first_child(above: &[TreePage]) -> Result<u64, AuditError>
    ensures ok { IfOk result (NamesFirst above.now) }
    ensures torn { IfTorn result (λ at found wanted. (handle : ℕ) → NamesFirst above.now handle → ⊥) }
    ensures led { (chunks : Chunks) (root : ℕ) → 0 < length above.now → AreLedTo chunks root above.now → IfTorn result (λ at found wanted. IsLedTo chunks root wanted) }
    ensures childless { 0 < length above.now → IfTorn result (λ at found wanted. IsChildless above.now wanted) }
    ensures no_fault { IsErrOf result DiskFailed → ⊥ }
{
    let Some(page) = above.first() else {
        return Err(AuditError::Torn(0, 0, 0));
    };
    match first_handle(&page.page) {
        None => Err(torn_at(page.handle)),
        Some(handle) => Ok(handle),
    }
}

/// The handle that the first entry of a page names; `None` exactly where there is no such entry.
fn first_handle(page: &Page) -> Option<u64>
    ensures some { IfSome result (λ handle. HasFirst page.now.entries handle) }
    ensures none { IfNone result ((handle : ℕ) → HasFirst page.now.entries handle → ⊥) }
{
    let entry = page.entry(0)?;
    handle_in(entry)
}
