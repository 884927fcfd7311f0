//! Which procedure has which arguments.

ghost use Rattle.std.specs.Prelude.{◌≡◌};
ghost use Rattle.bx_nfs.specs.Forms as specs;

use bx_rpc::NFS_PROGRAM;

/// What the arguments of a procedure are, by the variants of `Args` that they are read as.
#[derive(Clone, Copy)]
pub(crate) enum Form {
    /// None.
    Nothing,
    /// A file handle.
    Handle,
    /// A file handle and the attributes to set.
    Set,
    /// A directory and a name in it.
    Name,
    /// A file handle, an offset and two counts.
    Read,
    /// A file handle, two offsets, a count and data.
    Write,
    /// A directory and a name in it, and attributes.
    Make,
    /// Two directories, each with a name in it.
    Rename,
    /// A file handle, and a directory with a name in it.
    Link,
    /// A directory and a name in it, a path and attributes.
    Symlink,
    /// A directory, a cookie and a count.
    List,
    /// A path.
    Path,
}

/// What the arguments of the program's procedure are.
pub(crate) fn form_of(program: u32, procedure: u32) -> Form
    ensures { result ≡ specs.form_of program procedure }
{
    if program == NFS_PROGRAM {
        nfs_form(procedure)
    } else {
        mount_form(procedure)
    }
}

/// What the arguments of the procedure of NFS are (RFC 1094, section 2.2).
fn nfs_form(procedure: u32) -> Form
    ensures { result ≡ specs.nfs_form procedure }
{
    match procedure {
        1 | 5 | 17 => Form::Handle,
        2 => Form::Set,
        4 | 10 | 15 => Form::Name,
        6 => Form::Read,
        8 => Form::Write,
        9 | 14 => Form::Make,
        11 => Form::Rename,
        12 => Form::Link,
        13 => Form::Symlink,
        16 => Form::List,
        _ => Form::Nothing,
    }
}

/// What the arguments of the procedure of MOUNT are (RFC 1094, appendix A).
fn mount_form(procedure: u32) -> Form
    ensures { result ≡ specs.mount_form procedure }
{
    match procedure {
        1 | 3 => Form::Path,
        _ => Form::Nothing,
    }
}
