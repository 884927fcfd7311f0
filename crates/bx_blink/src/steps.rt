//! One step of a walk.

ghost use Rattle.std.specs.Prelude.{◌≡◌};
ghost use Rattle.bx_truth.specs.PageTrees.{handle_in};
ghost use Rattle.bx_blink.specs.Walks.{reads_with, Finds, passes, child_of, mode_at, onward, decide};

use crate::look::{block_at, page_of, seen};
use bx_base::Mode;
use bx_page_bytes::PageBytes;
use bx_truth::records::Draft;
use bx_truth::views::View;
use byteorder::{BigEndian, ByteOrder};

/// Where a walk is.
#[derive(Clone, Copy)]
pub(crate) struct Spot {
    /// The handle of the page there.
    pub(crate) handle: u64,
    /// The block of the hinted page that led to it, where one did.
    pub(crate) via: Option<u64>,
    /// How the page is to be held.
    pub(crate) mode: Mode,
}

/// What a walk finds at a spot.
#[derive(Drop)]
pub(crate) enum Found<'a> {
    /// No block is held there, and no page hinted.
    Missing,
    /// A block is held whose header names another handle.
    Strays,
    /// A block is held that is no page.
    NoPage,
    /// A page is held.
    Held(PageBytes<'a>),
    /// A page is hinted.
    Hinted(PageBytes<'a>),
}

/// How a walk ends.
#[derive(Drop)]
pub enum End<'a> {
    /// It needs a block, held in a mode.
    Needs(u64, Mode),
    /// What is held is no tree.
    Lost,
    /// At the page with this handle: it is of the wanted level, and the key is below its high key.
    Lands(u64, PageBytes<'a>),
}

/// What follows a step.
#[derive(Drop)]
pub(crate) enum Out<'a> {
    /// The walk goes on at a spot.
    Goes(Spot),
    /// It ends.
    Stops(End<'a>),
}

/// What is found at a spot.
pub(crate) fn look<'a, V: View>(
    draft: &'a Draft,
    view: &'a V,
    spot: &Spot,
    target: u16,
) -> Found<'a>
    ensures { Finds (reads_with (V.held view.now) (V.hints view.now) draft.now) target spot.now result }
{
    let at = block_at(spot.handle);
    match seen(draft, view, at, Mode::Shared) {
        Some(block) => {
            if block.handle != spot.handle {
                return Found::Strays;
            }
            match page_of(block) {
                None => Found::NoPage,
                Some(page) => Found::Held(page),
            }
        }
        None => match view.hint(at) {
            None => Found::Missing,
            Some(block) => {
                if block.handle != spot.handle {
                    return Found::Missing;
                }
                match page_of(block) {
                    None => Found::Missing,
                    Some(page) => {
                        if page.level() <= target {
                            return Found::Missing;
                        }
                        Found::Hinted(page)
                    }
                }
            }
        },
    }
}

/// What follows a step.
pub(crate) fn decide<'a>(
    found: Found<'a>,
    spot: &Spot,
    key: &[u8],
    target: u16,
    asked: Mode,
) -> Out<'a>
    ensures { result ≡ decide target asked key.now spot.now found.entry }
{
    match found {
        Found::Missing => Out::Stops(End::Needs(block_at(spot.handle), spot.mode)),
        Found::Strays => Out::Stops(match spot.via {
            None => End::Lost,
            Some(via) => End::Needs(via, Mode::Shared),
        }),
        Found::NoPage => Out::Stops(End::Lost),
        Found::Held(page) => onward(page, spot, None, key, target, asked),
        Found::Hinted(page) => onward(page, spot, Some(block_at(spot.handle)), key, target, asked),
    }
}

/// Where a walk goes from a page.
fn onward<'a>(
    page: PageBytes<'a>,
    spot: &Spot,
    via: Option<u64>,
    key: &[u8],
    target: u16,
    asked: Mode,
) -> Out<'a>
    ensures { result ≡ onward target asked key.now spot.now via page.entry }
{
    if passes(&page, key) {
        return Out::Goes(Spot {
            handle: page.right(),
            via,
            mode: mode_at(target, asked, page.level()),
        });
    }
    if page.level() == target {
        return Out::Stops(End::Lands(spot.handle, page));
    }
    Out::Goes(Spot {
        handle: child_of(&page, key),
        via,
        mode: mode_at(target, asked, page.level().saturating_sub(1)),
    })
}

/// Whether a page's keys are all below a key, so that the walk goes to the right.
pub fn passes(page: &PageBytes, key: &[u8]) -> bool
    ensures { result ≡ passes page.now key.now }
{
    match page.high() {
        None => false,
        Some(high) => !key.cmp(high).is_lt(),
    }
}

/// How a page of a level is to be held: as the call asks where it is the wanted level, and else shared.
fn mode_at(target: u16, asked: Mode, level: u16) -> Mode
    ensures { result ≡ mode_at target asked level }
{
    if level == target { asked } else { Mode::Shared }
}

/// The handle at the greatest key that isn't above a key; 0 where there is none.
pub fn child_of(page: &PageBytes, key: &[u8]) -> u64
    ensures { result ≡ child_of page.now key.now }
{
    match page.last_up_to(key) {
        None => 0,
        Some(entry) => handle_in(entry.value()),
    }
}

/// The handle that a value is; 0 where it hasn't got eight bytes.
pub fn handle_in(value: &[u8]) -> u64
    ensures { result ≡ handle_in value.now }
{
    if value.len() == 8 {
        BigEndian::read_u64(value)
    } else {
        0
    }
}
