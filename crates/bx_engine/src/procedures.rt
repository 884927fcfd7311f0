//! Numbers of procedures.

/// The procedure READLINK (RFC 1094, section 2.2.6).
pub(crate) const READLINK: u32 = 5;

/// The procedure STATFS (RFC 1094, section 2.2.18).
pub(crate) const STATFS: u32 = 17;

/// The procedure UMNT of MOUNT (RFC 1094, appendix A, section 5.4).
pub(crate) const UMNT: u32 = 3;
