//! Numbers of programs, versions and procedures.

ghost use Rattle.std.specs.Prelude.{◌≡◌, IfSome, IfNone};
ghost use Rattle.bx_rpc.specs.Checks.{IsProgram, version_of, last_procedure};

/// The program number of NFS (RFC 1094).
pub const NFS_PROGRAM: u32 = 100003;

/// The version of NFS that is served.
pub const NFS_VERSION: u32 = 2;

/// The program number of MOUNT (RFC 1094, appendix A).
pub const MOUNT_PROGRAM: u32 = 100005;

/// The version of MOUNT that is served.
pub const MOUNT_VERSION: u32 = 1;

/// The user and the group of a caller without a credential.
pub const NOBODY: u32 = 65534;

/// The greatest number of a procedure of NFS (RFC 1094, section 2.2).
const LAST_OF_NFS: u32 = 17;

/// The greatest number of a procedure of MOUNT (RFC 1094, appendix A).
const LAST_OF_MOUNT: u32 = 5;

/// The version of a program that is served; `None` exactly where the program isn't.
pub(crate) fn version(program: u32) -> Option<u32>
    ensures some { IfSome result (λ version. IsProgram program × (version ≡ version_of program)) }
    ensures none { IfNone result (IsProgram program → ⊥) }
{
    match program {
        NFS_PROGRAM => Some(NFS_VERSION),
        MOUNT_PROGRAM => Some(MOUNT_VERSION),
        _ => None,
    }
}

/// The greatest number of a procedure of the program.
pub(crate) fn last_procedure(program: u32) -> u32
    ensures { result ≡ last_procedure program }
{
    if program == NFS_PROGRAM {
        LAST_OF_NFS
    } else {
        LAST_OF_MOUNT
    }
}
