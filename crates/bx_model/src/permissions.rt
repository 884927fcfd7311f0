//! Who may do what.

ghost use Rattle.std.specs.Prelude.{◌≡◌, ◌==◌};
ghost use Rattle.std.specs.List.{list_any};
ghost use Rattle.bx_model.specs.Permissions.{may as may_do, is_allowed as is_allowed_to, is_owner as owns, is_in_group as is_in, class_bits as bits_of, has_bit as has};

use crate::call::Call;
use bx_tree_files::File;

/// What a caller wants to do with a file.
#[derive(Drop)]
pub enum Want {
    /// Read a file.
    Read,
    /// Write a file.
    Write,
    /// Search a directory for a name.
    Search,
    /// List a directory.
    List,
    /// Change a directory's entries.
    Change,
    /// Set a file's mode or times.
    Times,
    /// Set a file's owner to this one.
    Uid(u32),
    /// Set a file's group to this one.
    Gid(u32),
}

/// The bit of a mode that lets a class read.
const READ: u32 = 4;

/// The bit that lets it write.
const WRITE: u32 = 2;

/// The bit that lets it execute a file, or search a directory.
const EXECUTE: u32 = 1;

/// Whether a caller may do this. The user 0 may do everything.
pub fn may(call: &Call, file: &File, want: Want) -> bool
    ensures { result ≡ may_do call.now file.now want }
{
    call.uid == 0 || is_allowed(call, file, want)
}

/// Whether a caller other than the user 0 may do this.
fn is_allowed(call: &Call, file: &File, want: Want) -> bool
    ensures { result ≡ is_allowed_to call.now file.now want }
{
    match want {
        Want::Read => {
            is_owner(call, file) || has_bit(call, file, READ) || has_bit(call, file, EXECUTE)
        }
        Want::Write => is_owner(call, file) || has_bit(call, file, WRITE),
        Want::Search => has_bit(call, file, EXECUTE),
        Want::List => has_bit(call, file, READ),
        Want::Change => has_bit(call, file, WRITE) && has_bit(call, file, EXECUTE),
        Want::Times => is_owner(call, file),
        Want::Uid(uid) => is_owner(call, file) && uid == file.uid,
        Want::Gid(gid) => is_owner(call, file) && (gid == file.gid || is_in_group(call, gid)),
    }
}

/// Whether the caller owns the file.
fn is_owner(call: &Call, file: &File) -> bool
    ensures { result ≡ owns call.now file.now }
{
    call.uid == file.uid
}

/// Whether a group is the caller's, or one of the caller's further groups.
fn is_in_group(call: &Call, gid: u32) -> bool
    ensures { result ≡ is_in call.now gid }
{
    call.gid == gid || has_group(call.gids.items(), gid)
}

/// Whether a group is among others.
fn has_group(gids: &[u32], gid: u32) -> bool
    ensures { result ≡ list_any (λ other. other == gid) gids.now }
{
    gids.iter().any(|other| *other == gid)
}

/// The three bits of a mode that are for the caller's class.
fn class_bits(call: &Call, file: &File) -> u32
    ensures { result ≡ bits_of call.now file.now }
{
    if is_owner(call, file) {
        file.mode / 64
    } else if is_in_group(call, file.gid) {
        file.mode / 8
    } else {
        file.mode
    }
}

/// Whether the caller's class has a bit.
fn has_bit(call: &Call, file: &File, bit: u32) -> bool
    ensures { result ≡ has call.now file.now bit }
{
    class_bits(call, file) & bit != 0
}
