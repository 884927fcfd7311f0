//! The calls that change a file tree.

ghost use Rattle.std.specs.Prelude.{◌≤◌, ◌↔◌, ℕ, IfOk, IsTrue};
ghost use Rattle.bx_nfs.specs.Asked.{IsNfs};
ghost use Rattle.bx_views.specs.declared.attempt.Attempt.{Attempt};
ghost use Rattle.bx_attempts.specs.Attempts.{IsAttemptOf};
ghost use Rattle.bx_attempts.specs.Calls.{IsChanging};
ghost use Rattle.bx_attempts.specs.Replies.{IsOutcome};

use crate::replies::{attempted, stopping, with_no_file};
use crate::times::time_of;
use bx_base::OutOfMemory;
use bx_changes::ChangeError;
use bx_creating::entries::{Removable, remove};
use bx_creating::sizes::setattr;
use bx_creating::{create, mkdir, symlink};
use bx_model::{Args, Call, Reply};
use bx_records::Draft;
use bx_renaming::{Names, link, rename};
use bx_rpc::NFS_PROGRAM;
use bx_views::{Attempt, View};
use bx_writes::write;
use std::alloc::Global;

/// The procedure SETATTR (RFC 1094, section 2.2.3).
const SETATTR: u32 = 2;

/// The procedure WRITE (RFC 1094, section 2.2.9).
const WRITE: u32 = 8;

/// The procedure CREATE (RFC 1094, section 2.2.10).
const CREATE: u32 = 9;

/// The procedure REMOVE (RFC 1094, section 2.2.11).
const REMOVE: u32 = 10;

/// The procedure RENAME (RFC 1094, section 2.2.12).
const RENAME: u32 = 11;

/// The procedure LINK (RFC 1094, section 2.2.13).
const LINK: u32 = 12;

/// The procedure SYMLINK (RFC 1094, section 2.2.14).
const SYMLINK: u32 = 13;

/// The procedure MKDIR (RFC 1094, section 2.2.15).
const MKDIR: u32 = 14;

/// The procedure RMDIR (RFC 1094, section 2.2.16).
const RMDIR: u32 = 15;

/// How many bytes a name has at most.
const MOST_NAME: usize = 255;

/// How many bytes a link's path has at most.
const MOST_PATH: usize = 1024;

/// How many bytes are written at once at most.
const MOST_DATA: usize = 8192;

/// Whether a call changes the file tree: it is SETATTR, WRITE, CREATE, REMOVE, RENAME, LINK,
/// SYMLINK, MKDIR or RMDIR.
pub fn is_change(call: &Call) -> bool
    ensures { IsTrue result ↔ IsChanging call.now }
{
    match &call.args {
        Args::Set(_, _) => is_procedure(call, SETATTR),
        Args::Write(_, _, _, _, written) => {
            is_procedure(call, WRITE) && written.bytes().len() <= MOST_DATA
        }
        Args::Name(_, _) => is_procedure(call, REMOVE) || is_procedure(call, RMDIR),
        Args::Rename(_, _, _, new_name) => {
            is_procedure(call, RENAME) && new_name.bytes().len() <= MOST_NAME
        }
        Args::Link(_, _, name) => is_procedure(call, LINK) && name.bytes().len() <= MOST_NAME,
        Args::Symlink(_, name, path, _) => {
            is_procedure(call, SYMLINK)
                && name.bytes().len() <= MOST_NAME
                && path.bytes().len() <= MOST_PATH
        }
        Args::Make(_, name, _) => {
            (is_procedure(call, MKDIR) || is_procedure(call, CREATE))
                && name.bytes().len() <= MOST_NAME
        }
        _ => false,
    }
}

/// Whether a call is a procedure of NFS.
fn is_procedure(call: &Call, number: u32) -> bool
    ensures { IsTrue result ↔ IsNfs number call.now }
{
    call.program == NFS_PROGRAM && call.procedure == number
}

/// Attempts a call that changes the file tree of a volume, by its number and its areas, at most 64, at a moment in milliseconds, at most
/// 4294967295999. `Need` names what its procedure does. `Inner` comes exactly where the call comes to no error, with 8 blocks free, and lacks something:
/// room for an entry or for a piece, or cleared bytes, over which a file would grow. It makes that room, or clears some of them, and a change comes only where
/// nothing is lacking.
pub fn change<V: View>(
    alloc: Global,
    volume: u64,
    areas: u16,
    xid: u32,
    call: &Call,
    moment: u64,
    view: &V,
) -> Result<Attempt, OutOfMemory>
    requires areas { areas ≤ 64 }
    requires changing { IsChanging call.now }
    requires moment { moment ≤ 4294967295999 }
    ensures { IfOk result (IsAttemptOf volume areas (V.held view.now) (V.hints view.now) xid call.now moment) }
{
    let outcome = act(alloc, volume, areas, call, moment, view);
    attempted(alloc, xid, outcome)
}

/// What the procedure of such a call comes to: the blocks that it changes, the reply, and the handle of the file that it made, or 0. Whatever tells it is an
/// attempt of the call.
fn act<V: View>(
    alloc: Global,
    volume: u64,
    areas: u16,
    call: &Call,
    moment: u64,
    view: &V,
) -> Result<(Draft, Reply, u64), ChangeError>
    requires areas { areas ≤ 64 }
    requires changing { IsChanging call.now }
    requires moment { moment ≤ 4294967295999 }
    ensures { (xid : ℕ) (attempt : Attempt) → IsOutcome xid result attempt
        → IsAttemptOf volume areas (V.held view.now) (V.hints view.now) xid call.now moment attempt }
{
    let now = time_of(moment);
    match &call.args {
        Args::Set(at, sattr) => {
            let at = at.bytes();
            stopping(setattr(alloc, volume, areas, call, at, sattr, now, view))
        }
        Args::Write(at, _, offset, _, written) => {
            let (volume, at, written) = ((volume, areas), at.bytes(), written.bytes());
            with_no_file(write(alloc, volume, view, call, at, *offset, written, now))
        }
        Args::Name(at, name) => {
            let (at, name) = (at.bytes(), name.bytes());
            if call.procedure == REMOVE {
                let sort = Removable::Plain;
                stopping(remove(alloc, volume, areas, call, at, name, sort, now, view))
            } else {
                let sort = Removable::Directory;
                stopping(remove(alloc, volume, areas, call, at, name, sort, now, view))
            }
        }
        Args::Rename(from, name, to, new_name) => {
            let (from, name) = (from.bytes(), name.bytes());
            let (to, new_name) = (to.bytes(), new_name.bytes());
            let names = Names {
                from,
                name,
                to,
                new_name,
            };
            with_no_file(rename(alloc, volume, areas, call, &names, now, view))
        }
        Args::Link(from, at, name) => {
            let (from, at, name) = (from.bytes(), at.bytes(), name.bytes());
            with_no_file(link(alloc, volume, areas, call, from, at, name, now, view))
        }
        Args::Symlink(at, name, path, sattr) => {
            let (at, name, path) = (at.bytes(), name.bytes(), path.bytes());
            symlink(alloc, volume, areas, call, at, name, path, sattr, now, view)
        }
        Args::Make(at, name, sattr) => {
            let (at, name) = (at.bytes(), name.bytes());
            if call.procedure == MKDIR {
                mkdir(alloc, volume, areas, call, at, name, sattr, now, view)
            } else {
                create(alloc, volume, areas, call, at, name, sattr, now, view)
            }
        }
        _ => unreachable!(),
    }
}
