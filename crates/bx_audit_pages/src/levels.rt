//! The pages of a level.

ghost use Rattle.std.specs.Prelude.{◌≡◌, ◌≤◌, ◌<◌, ℕ, List, Option, length, IfOk, IfSome};
ghost use Rattle.bx_page.specs.Contents.{Contents};
ghost use Rattle.bx_page.specs.Keys.{IsBelow};
ghost use Rattle.bx_truth.specs.PageTrees.{Chunks, Node};
ghost use Rattle.bx_audit_pages.specs.Errors.{IfTorn};
ghost use Rattle.bx_audit_pages.specs.Leading.{AreLedTo, IsLedTo};
ghost use Rattle.bx_audit_pages.specs.Pages.{BeginningsRise, IsLevelFrom, IsPageAt, IsPlaced, LeadsTo};
ghost use Rattle.bx_audit_pages.specs.Room.{room_above};
ghost use Rattle.bx_audit_pages.specs.Shown.{Shows};
ghost use Rattle.bx_audit_pages.specs.Torn.{IsTornAlong};
ghost use Rattle.bx_audit_pages.specs.Reading.{ReadsChunks, StillShows};
ghost use Rattle.bx_homes.specs.Reading.{CanRead};

use crate::error::AuditError;
use crate::pages::{TreePage, page_at, way_of};
use bx_base::Raw;
use bx_homes::Blocks;
use bx_page::Page;
use std::alloc::Global;

/// The pages of a level, from the one with a handle on to the right. Torn exactly where this is no level's first page: of the first page on the
/// way that can't be there.
#[tactic(auto, using(crate::proofs::Leads::itself_led, crate::proofs::Leads::none_led, crate::proofs::Torn::start_met))]
pub fn level_from<B: Blocks>(
    alloc: Global,
    blocks: &mut B,
    areas: u16,
    level: u16,
    first: u64,
) -> Result<Vec<TreePage>, AuditError>
    requires blocks { CanRead B.Blocks areas blocks.old }
    ensures ok { (chunks : Chunks) → Shows (B.tells blocks.old) areas (B.stands blocks.old) chunks → IfOk result (λ pages. IsLevelFrom chunks level first pages.items) }
    ensures torn { (chunks : Chunks) → Shows (B.tells blocks.old) areas (B.stands blocks.old) chunks → IfTorn result (λ at found wanted. (nodes : List Node) → IsLevelFrom chunks level first nodes → ⊥) }
    ensures rise { IfOk result (λ pages. BeginningsRise pages.items) }
    ensures led { (chunks : Chunks) → Shows (B.tells blocks.old) areas (B.stands blocks.old) chunks → IfOk result (λ pages. AreLedTo chunks first pages.items) }
    ensures leads { (chunks : Chunks) → Shows (B.tells blocks.old) areas (B.stands blocks.old) chunks → IfTorn result (λ at found wanted. IsLedTo chunks first wanted) }
    ensures wrong { (chunks : Chunks) → Shows (B.tells blocks.old) areas (B.stands blocks.old) chunks → IfTorn result (λ at found wanted. IsTornAlong chunks level first wanted) }
    ensures shows { StillShows B.Blocks areas blocks.old blocks.new }
    ensures blocks { ReadsChunks B.Blocks blocks.old blocks.new result }
{
    let mut pages = Vec::new(alloc);
    let mut handle = first;
    let mut begins = Raw::of(alloc, &[])?;
    loop {
        let (page, next) = page_of(alloc, blocks, areas, level, handle, begins.bytes())?;
        pages.push(TreePage {
            handle,
            begins,
            page,
        })?;
        let Some((right, high)) = next else {
            return Ok(pages);
        };
        handle = right;
        begins = high;
    }
}

/// The page of a level under a handle, whose range begins at a key, and where it leads. Torn exactly where there can't be such a page.
fn page_of<B: Blocks>(
    alloc: Global,
    blocks: &mut B,
    areas: u16,
    level: u16,
    handle: u64,
    begins: &[u8],
) -> Result<(Page, Option<(u64, Raw)>), AuditError>
    requires blocks { CanRead B.Blocks areas blocks.old }
    requires short { length begins.now ≤ 256 }
    ensures at { (chunks : Chunks) → Shows (B.tells blocks.old) areas (B.stands blocks.old) chunks → IfOk result (λ x. IsPageAt chunks handle x.0) }
    ensures placed { IfOk result (λ x. IsPlaced level begins.now x.0) }
    ensures leads { IfOk result (λ x. LeadsTo x.0 x.1) }
    ensures above { IfOk result (λ x. IfSome x.1 (λ next. IsBelow begins.now next.1)) }
    ensures less { IfOk result (λ x. IfSome x.1 (λ next. room_above next.1 < room_above begins.now)) }
    ensures short { IfOk result (λ x. IfSome x.1 (λ next. length next.1 ≤ 256)) }
    ensures torn { (chunks : Chunks) → Shows (B.tells blocks.old) areas (B.stands blocks.old) chunks → IfTorn result (λ at found wanted. (page : Contents) (next : Option (ℕ × List ℕ)) → IsPageAt chunks handle page → IsPlaced level begins.now page → LeadsTo page next → ⊥) }
    ensures names { IfTorn result (λ at found names. names ≡ handle) }
    ensures shows { StillShows B.Blocks areas blocks.old blocks.new }
    ensures blocks { ReadsChunks B.Blocks blocks.old blocks.new result }
{
    let page = page_at(alloc, blocks, areas, handle)?;
    let next = way_of(alloc, &page, handle, level, begins)?;
    Ok((page, next))
}
