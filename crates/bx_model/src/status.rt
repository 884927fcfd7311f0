//! The statuses that are answered (RFC 1094, section 2.3.1).

/// The call did what it was asked.
pub const NFS_OK: u32 = 0;

/// Not the owner.
pub const PERM: u32 = 1;

/// No such file or directory.
pub const NOENT: u32 = 2;

/// No such device or address: the file is a symbolic link, or isn't one where a link is asked for.
pub const NXIO: u32 = 6;

/// Permission denied.
pub const ACCES: u32 = 13;

/// The file exists.
pub const EXIST: u32 = 17;

/// Not a directory.
pub const NOTDIR: u32 = 20;

/// Is a directory.
pub const ISDIR: u32 = 21;

/// The file would be too large.
pub const FBIG: u32 = 27;

/// No space is left on the volume.
pub const NOSPC: u32 = 28;

/// The way from a directory to the root is too long.
pub const NAMETOOLONG: u32 = 63;

/// The directory isn't empty.
pub const NOTEMPTY: u32 = 66;

/// A limit on links or on the numbers of entries is reached.
pub const DQUOT: u32 = 69;

/// The file handle names no file.
pub const STALE: u32 = 70;
