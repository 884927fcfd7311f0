//! One page of a tree.

ghost use Rattle.std.specs.Prelude.{◌≡◌, ◌≤◌, ◌<◌, ℕ, false, length, List, All, Option, IfOk, IfSome, IfNone, IsErrOf, IsTrue, ◌↔◌};
ghost use Rattle.bx_base.specs.Bytes.{IsBytes};
ghost use Rattle.bx_page.specs.Contents.{Contents, IsPage, Rises};
ghost use Rattle.bx_page.specs.Keys.{is_below, IsBelow};
ghost use Rattle.bx_truth.specs.PageTrees.{Chunks, HasPage};
ghost use Rattle.bx_truth.specs.Chunks.{block_at};
ghost use Rattle.bx_audit_pages.specs.declared.error.AuditError.TheVariants.{Torn, Fault as DiskFailed};
ghost use Rattle.bx_audit_pages.specs.Errors.{IfTorn};
ghost use Rattle.bx_audit_pages.specs.Pages.{IsPageAt, IsPlaced, LeadsTo};
ghost use Rattle.bx_audit_pages.specs.Room.{room_above};
ghost use Rattle.bx_audit_pages.specs.Shown.{Shows};
ghost use Rattle.bx_audit_pages.specs.Reading.{ReadsChunks, StillShows};
ghost use Rattle.bx_homes.specs.Reading.{CanRead};

use crate::chunks::chunk_at;
use crate::error::AuditError;
use bx_base::{OutOfMemory, Raw};
use bx_homes::Blocks;
use bx_layout::Block;
use bx_page::Page;
use bx_places::ChunkHandle;
use std::alloc::Global;
use std::marker::Model;

/// The kind of blocks that are pages.
const PAGE: u32 = 2;

/// A page of a tree, with its handle and the key where its range begins.
#[derive(Drop)]
pub struct TreePage {
    pub(crate) handle: u64,
    pub(crate) begins: Raw,
    pub(crate) page: Page,
}

impl Model for TreePage {
    ghost use Rattle.bx_truth.specs.PageTrees.{Node};

    ghost Value = { Node };

    ghost view = { λ page. record { handle = page.handle; begins = page.begins; page = page.page } };
}

impl TreePage {
    /// The handle.
    pub fn handle(&self) -> u64
        ensures { result ≡ self.now.handle }
    {
        self.handle
    }

    /// The page.
    pub fn page(&self) -> &Page
        ensures { result.now ≡ self.now.page }
    {
        &self.page
    }
}

/// The page that a handle names; torn exactly where it names none.
pub fn page_at<B: Blocks>(
    alloc: Global,
    blocks: &mut B,
    areas: u16,
    handle: u64,
) -> Result<Page, AuditError>
    requires blocks { CanRead B.Blocks areas blocks.old }
    ensures ok { (chunks : Chunks) → Shows (B.tells blocks.old) areas (B.stands blocks.old) chunks → IfOk result (λ page. IsPageAt chunks handle page) }
    ensures is { IfOk result IsPage }
    ensures torn { (chunks : Chunks) → Shows (B.tells blocks.old) areas (B.stands blocks.old) chunks → IfTorn result (λ at found wanted. (page : Contents) → IsPageAt chunks handle page → ⊥) }
    ensures names { IfTorn result (λ at found names. names ≡ handle) }
    ensures shows { StillShows B.Blocks areas blocks.old blocks.new }
    ensures blocks { ReadsChunks B.Blocks blocks.old blocks.new result }
{
    let block = chunk_at(blocks, areas, handle)?;
    match page_in(alloc, &block)? {
        None => Err(torn_at(handle)),
        Some(page) => Ok(page),
    }
}

/// The page that a block is, `None` exactly where it is none.
fn page_in(alloc: Global, block: &Block) -> Result<Option<Page>, OutOfMemory>
    ensures some { IfOk result (λ found. IfSome found (λ page. HasPage page block.now)) }
    ensures is { IfOk result (λ found. IfSome found IsPage) }
    ensures none { IfOk result (λ found. IfNone found ((page : Contents) → HasPage page block.now → ⊥)) }
{
    if block.kind != PAGE {
        return Ok(None);
    }
    Page::read(alloc, block.payload.bytes())
}

/// That what a handle names is wrong, though it is under this handle.
pub fn torn_at(handle: u64) -> AuditError
    ensures { result ≡ Torn (block_at handle) handle handle }
{
    AuditError::Torn(ChunkHandle::of(handle).block(), handle, handle)
}

/// Where a page of a level leads, whose range begins at a key. Torn exactly where it can't be a page of the level there.
pub(crate) fn way_of(
    alloc: Global,
    page: &Page,
    handle: u64,
    level: u16,
    begins: &[u8],
) -> Result<Option<(u64, Raw)>, AuditError>
    requires page { IsPage page.now }
    requires short { length begins.now ≤ 256 }
    ensures placed { IfOk result (λ next. IsPlaced level begins.now page.now) }
    ensures leads { IfOk result (LeadsTo page.now) }
    ensures above { IfOk result (λ next. IfSome next (λ x. IsBelow begins.now x.1)) }
    ensures less { IfOk result (λ next. IfSome next (λ x. room_above x.1 < room_above begins.now)) }
    ensures short { IfOk result (λ next. IfSome next (λ x. length x.1 ≤ 256)) }
    ensures torn { IfTorn result (λ at found wanted. (next : Option (ℕ × List ℕ)) → IsPlaced level begins.now page.now → LeadsTo page.now next → ⊥) }
    ensures names { IfTorn result (λ at found names. names ≡ handle) }
    ensures no_fault { IsErrOf result DiskFailed → ⊥ }
{
    if page.level() != level || !begins_above(page, begins) {
        return Err(torn_at(handle));
    }
    let right = page.right();
    match page.high() {
        None if right == 0 => Ok(None),
        Some(high) if right != 0 && comes_behind(begins, high) => {
            Ok(Some((right, Raw::of(alloc, high)?)))
        }
        _ => Err(torn_at(handle)),
    }
}

/// Whether a key is above another. Both are bytes.
fn comes_behind(key: &[u8], high: &[u8]) -> bool
    ensures above { IsTrue result ↔ IsBelow key.now high.now }
    ensures key { IsBytes key.now }
    ensures high { IsBytes high.now }
{
    key.cmp(high).is_lt()
}

/// Whether no key of a page is below a key.
fn begins_above(page: &Page, begins: &[u8]) -> bool
    requires { Rises page.now.entries }
    ensures { IsTrue result ↔ All (λ entry. is_below entry.key begins.now ≡ false) page.now.entries }
{
    match page.entry(0) {
        None => true,
        Some(entry) => !entry.key.bytes().cmp(begins).is_lt(),
    }
}
