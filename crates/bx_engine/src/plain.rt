//! Procedures without arguments.

ghost use Rattle.std.specs.Prelude.{◌≡◌};
ghost use Rattle.bx_model.specs.Mounting.{plain as plain_of};

use bx_model::Reply;
use bx_rpc::MOUNT_PROGRAM;

/// The procedure DUMP of MOUNT (RFC 1094, appendix A, section 5.3).
const DUMP: u32 = 2;

/// The procedure EXPORT of MOUNT (RFC 1094, appendix A, section 5.6).
const EXPORT: u32 = 5;

/// What a procedure without arguments answers, by the program's number and its own.
pub(crate) fn plain(program: u32, procedure: u32) -> Reply
    ensures { result ≡ plain_of program procedure }
{
    match (program, procedure) {
        (MOUNT_PROGRAM, DUMP) => Reply::Mounts,
        (MOUNT_PROGRAM, EXPORT) => Reply::Exports,
        _ => Reply::Empty,
    }
}
