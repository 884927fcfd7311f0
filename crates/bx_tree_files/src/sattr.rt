//! Attributes that a client sets.

/// The attributes that a client may set (RFC 1094, section 2.3.6). A field of 4294967295 is left alone; of a time its
/// seconds decide.
#[derive(Drop)]
pub struct Sattr {
    /// The permissions: its low 12 bits count.
    pub mode: u32,
    /// The owner.
    pub uid: u32,
    /// The group.
    pub gid: u32,
    /// The size in bytes.
    pub size: u32,
    /// When it was read last, in seconds and microseconds; microseconds above 999999 count as 0.
    pub atime: (u32, u32),
    /// When its content was changed last, as `atime`.
    pub mtime: (u32, u32),
}
