//! A page of a directory that is being filled.

ghost use Rattle.std.specs.Prelude.{◌≡◌, ◌-◌, ◌∷◌, [], IfOk, if◌then◌else◌, min};
ghost use Rattle.bx_call_parts.specs.Pages.{dots, filled, spent};
ghost use Rattle.bx_model.specs.Directories.{behind};

use bx_base::{OutOfMemory, Raw};
use bx_model::{Listed, ListedList, fileid};
use std::alloc::Global;

/// The most bytes of a page (RFC 1094, section 2.3.9).
const MOST_DATA: u32 = 8192;

/// How many bytes of a page are no entry's.
const PAGE_ENDS: u32 = 8;

/// The numbers of the directory itself and of its parent.
const ITSELF: u32 = 1;

const PARENT: u32 = 2;

/// A page of a directory so far.
#[derive(Drop)]
pub struct Page {
    /// The entries that it lists.
    pub entries: ListedList,
    /// How many bytes are left for others.
    pub room: usize,
}

impl Page {
    /// The page of so many bytes with no entries.
    pub fn new(alloc: Global, count: u32) -> Page
        ensures { result ≡ record { entries = []; room = min count 8192 - 8 } }
    {
        Page {
            entries: ListedList::new(alloc),
            room: count.min(MOST_DATA).saturating_sub(PAGE_ENDS) as usize,
        }
    }

    /// Puts the directory itself and its parent on the page, as far as they are behind the cookie, until one doesn't
    /// fit; whether both fit.
    pub fn put_dots(
        &mut self,
        alloc: Global,
        directory: u64,
        parent: u64,
        cookie: u32,
    ) -> Result<bool, OutOfMemory>
        ensures { IfOk result (λ all. (all, self.new) ≡ filled self.old (behind cookie (dots directory parent))) }
    {
        match cookie {
            0 => {
                let fits = self.put(alloc, ITSELF, b".", directory)?;
                if !fits {
                    return Ok(false);
                }
                self.put(alloc, PARENT, b"..", parent)
            }
            1 => self.put(alloc, PARENT, b"..", parent),
            _ => Ok(true),
        }
    }

    /// Puts an entry on the page, if it fits; whether it does.
    pub fn put(
        &mut self,
        alloc: Global,
        number: u32,
        name: &[u8],
        handle: u64,
    ) -> Result<bool, OutOfMemory>
        ensures { IfOk result (λ fits. (fits, self.new) ≡ filled self.old (record { number = number; name = name.now; handle = handle } ∷ [])) }
    {
        let cost = cost(name);
        if cost > self.room {
            return Ok(false);
        }
        self.entries.push(Listed {
            fileid: fileid(handle),
            name: Raw::of(alloc, name)?,
            cookie: number,
        })?;
        self.room -= cost;
        Ok(true)
    }
}

/// What tells whether a page ends with the last entry: 1, or else 0.
pub fn end_word(is_end: bool) -> u32
    ensures { result ≡ (if is_end then 1 else 0) }
{
    if is_end { 1 } else { 0 }
}

/// How many bytes of a page the entry with a name takes.
fn cost(name: &[u8]) -> usize
    ensures { result ≡ spent name.now }
{
    16 + 4 * ((name.len() + 3) / 4)
}
