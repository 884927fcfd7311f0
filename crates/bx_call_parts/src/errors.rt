//! What forbids a caller to set attributes of a file, or its size.

ghost use Rattle.std.specs.Prelude.{◌≡◌, ◌||◌, MatchOption, Ok, Err};
ghost use Rattle.bx_model.specs.Writing.{is_forbidden as is_forbidden_to, resize_errors};
ghost use Rattle.bx_model.specs.bx_tree_files.specs.Times.{is_given as is_given_word};

use bx_model::{ACCES, Call, DIRECTORY, FBIG, File, ISDIR, LINK, NXIO, Sattr, Want, is_given, may};

/// The most bytes that a file has.
pub const MOST_BYTES: u32 = 2147483647;

/// Whether a caller wants to set something that the caller may not set of a file: the mode or a time, the owner, or the group.
pub fn forbids(call: &Call, file: &File, sattr: &Sattr) -> bool
    ensures { result ≡ is_forbidden_to call.now file.now sattr.now }
{
    sets_mode_or_times(sattr) && !may(call, file, Want::Times)
        || is_given(sattr.uid) && !may(call, file, Want::Uid(sattr.uid))
        || is_given(sattr.gid) && !may(call, file, Want::Gid(sattr.gid))
}

/// Whether the mode or a time is given.
fn sets_mode_or_times(sattr: &Sattr) -> bool
    ensures { result ≡ (is_given_word sattr.now.mode || is_given_word sattr.now.atime.0 || is_given_word sattr.now.mtime.0) }
{
    is_given(sattr.mode) || is_given(sattr.atime.0) || is_given(sattr.mtime.0)
}

/// The first error of setting a file's size, where one is given: `ISDIR`, `NXIO`, `ACCES` or `FBIG`.
pub fn resize_error(call: &Call, file: &File, size: u32) -> Option<u32>
    ensures { MatchOption result (resize_errors call.now file.now size ≡ Ok tt) (λ status. resize_errors call.now file.now size ≡ Err status) }
{
    if !is_given(size) {
        return None;
    }
    if file.kind == DIRECTORY {
        return Some(ISDIR);
    }
    if file.kind == LINK {
        return Some(NXIO);
    }
    if !may(call, file, Want::Write) {
        return Some(ACCES);
    }
    if size > MOST_BYTES {
        return Some(FBIG);
    }
    None
}
