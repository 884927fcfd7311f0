//! The counts of lines of a trace.

ghost use Rattle.std.specs.Prelude.{◌≡◌, ◌≤◌, ◌++◌, ◌+◌, ◌&&◌, if◌then◌else◌, [], ◌∷◌, true, codes, decimal, drop, length, take, IfOk, OnOk};
ghost use Rattle.bx_base.specs.Text.{ended, text_of};
ghost use Rattle.bx_make.specs.Counts.{begins_with, bytes_before, count_line, count_lines, seen_text};

use bx_base::{OutOfMemory, push};
use itoa::Buffer;
use std::alloc::Global;

/// What the line of a file begins with.
const FILE: &[u8] = b"file ";

/// The six lines that tell of a replay, by how many calls its schedule has, and by what it wrote: the counts of calls, and of lines of the
/// trace that begin with each word, and of the files in the listing.
pub(crate) fn counts(alloc: Global, calls: u32, output: &[u8]) -> Result<Vec<u8>, OutOfMemory>
    ensures { IfOk result (λ text. text.items ≡ seen_text calls output.now) }
{
    let (told, listing) = output.split_at(listing_at(output));
    let mut text = Vec::new(alloc);
    put_count(&mut text, b"calls", calls as usize)?;
    put_count(&mut text, b"taken", count(told, b"took "))?;
    put_count(&mut text, b"points", count(told, b"point "))?;
    put_count(&mut text, b"replies", count(told, b"reply "))?;
    put_count(&mut text, b"again", count(told, b"again "))?;
    put_count(&mut text, b"files", count(listing, FILE))?;
    Ok(text)
}

/// How many bytes come before the first line of a file.
#[tactic(auto, unfolding(crate::specs::Counts::bytes_before))]
fn listing_at(output: &[u8]) -> usize
    ensures value { result ≡ bytes_before (codes "file ") true output.now }
    ensures within { result ≤ length output.now }
{
    let mut starts = true;
    for at in 0..output.len() {
        if begins(output, at, starts, FILE) {
            return at;
        }
        starts = output[at] == b'\n';
    }
    output.len()
}

/// How many lines begin with a word.
#[tactic(auto, unfolding(crate::specs::Counts::count_lines))]
fn count(text: &[u8], word: &[u8]) -> usize
    ensures value { result ≡ count_lines word.now true text.now }
{
    let mut count = 0;
    let mut starts = true;
    for at in 0..text.len() {
        count += one_where(begins(text, at, starts, word));
        starts = text[at] == b'\n';
    }
    count
}

// Whether a line begins at a place, and begins with a word there.
fn begins(text: &[u8], at: usize, starts: bool, word: &[u8]) -> bool
    requires { at ≤ length text.now }
    ensures { result ≡ (starts && begins_with word.now (drop at text.now)) }
{
    starts && text[at..].starts_with(word)
}

// 1 or 0.
fn one_where(holds: bool) -> usize
    ensures { result ≡ (if holds then 1 else 0) }
{
    if holds { 1 } else { 0 }
}

/// Puts a line of a word and a number.
fn put_count(text: &mut Vec<u8>, word: &[u8], number: usize) -> Result<(), OutOfMemory>
    ensures { OnOk result (text.new.items ≡ text.old.items ++ ended (count_line word.now number)) }
{
    let mut digits = Buffer::new();
    push(text, word)?;
    push(text, b" ")?;
    push(text, digits.format(number).as_bytes())?;
    push(text, b"\n")
}
