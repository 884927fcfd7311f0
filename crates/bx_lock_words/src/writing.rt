//! Writing what is said.

ghost use Rattle.std.specs.Prelude.{◌≡◌, ◌++◌, IfOk, OnOk};
ghost use Rattle.bx_lock_words.specs.Words.{body_text, grant_text, mode_text, numbers_text, release_text, revoke_text, want_text};

use crate::words::{Grant, Release, Revoke, Want, Word};
use bx_base::{Mode, OutOfMemory, Raw, push_u32, push_u64};
use std::alloc::Global;

impl Word {
    /// The body.
    pub fn write(&self, alloc: Global) -> Result<Raw, OutOfMemory>
        ensures { IfOk result (λ raw. raw ≡ body_text self.now) }
    {
        let mut out = Vec::new(alloc);
        push_word(&mut out, self)?;
        Ok(Raw::from(out))
    }
}

/// Puts a body at the end.
fn push_word(out: &mut Vec<u8>, word: &Word) -> Result<(), OutOfMemory>
    ensures { OnOk result (out.new.items ≡ out.old.items ++ body_text word.now) }
{
    match word {
        Word::Wants(want) => push_want(out, want),
        Word::Grants(grant) => push_grant(out, grant),
        Word::Revokes(revoke) => push_revoke(out, revoke),
        Word::Releases(release) => push_release(out, release),
        Word::Renews(session) => push_u64(out, *session),
        Word::Leases(session, until) => push_numbers(out, *session, *until),
    }
}

/// Puts two numbers at the end.
fn push_numbers(out: &mut Vec<u8>, first: u64, second: u64) -> Result<(), OutOfMemory>
    ensures { OnOk result (out.new.items ≡ out.old.items ++ numbers_text first second) }
{
    push_u64(out, first)?;
    push_u64(out, second)
}

/// Puts a mode at the end: 0 shared, 1 exclusive.
fn push_mode(out: &mut Vec<u8>, mode: Mode) -> Result<(), OutOfMemory>
    ensures { OnOk result (out.new.items ≡ out.old.items ++ mode_text mode) }
{
    match mode {
        Mode::Shared => push_u32(out, 0),
        Mode::Exclusive => push_u32(out, 1),
    }
}

/// Puts a want at the end.
fn push_want(out: &mut Vec<u8>, want: &Want) -> Result<(), OutOfMemory>
    ensures { OnOk result (out.new.items ≡ out.old.items ++ want_text want.now) }
{
    push_numbers(out, want.session, want.block)?;
    push_mode(out, want.mode)?;
    push_u64(out, want.number)
}

/// Puts a grant at the end.
fn push_grant(out: &mut Vec<u8>, grant: &Grant) -> Result<(), OutOfMemory>
    ensures { OnOk result (out.new.items ≡ out.old.items ++ grant_text grant.now) }
{
    push_numbers(out, grant.session, grant.block)?;
    push_mode(out, grant.mode)?;
    push_numbers(out, grant.number, grant.index)
}

/// Puts a revoke at the end.
fn push_revoke(out: &mut Vec<u8>, revoke: &Revoke) -> Result<(), OutOfMemory>
    ensures { OnOk result (out.new.items ≡ out.old.items ++ revoke_text revoke.now) }
{
    push_numbers(out, revoke.session, revoke.block)?;
    push_numbers(out, revoke.number, revoke.asking)
}

/// Puts a release at the end.
fn push_release(out: &mut Vec<u8>, release: &Release) -> Result<(), OutOfMemory>
    ensures { OnOk result (out.new.items ≡ out.old.items ++ release_text release.now) }
{
    push_numbers(out, release.session, release.block)?;
    push_numbers(out, release.number, release.index)
}
