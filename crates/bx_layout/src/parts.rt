//! The parts of an inode, as they are read one after the other.

ghost use Rattle.std.specs.Prelude.{◌≡◌};
ghost use Rattle.bx_base.specs.Reading.{Gives};
ghost use Rattle.bx_layout.specs.InodeParts.{is_kind, owner_at, pair_at, pairs_at, path_at, sizes_at, tree_at};

use bx_base::{Raw, ReadError, front_at, u32_at, u64_at};
use std::alloc::Global;

/// Two numbers of 32 bits, and three such pairs.
type Pair = (u32, u32);

type Pairs = (Pair, (Pair, Pair));

/// The mode's bits are below this.
const MODES: u32 = 4096;

/// What an inode begins with.
#[derive(Clone, Copy)]
pub struct OwnerPart {
    /// The type of the file.
    pub kind: u32,
    /// The mode's 12 bits.
    pub mode: u32,
    /// How many names it has.
    pub nlink: u32,
    /// The owner.
    pub uid: u32,
    /// The group.
    pub gid: u32,
}

/// How long a file is, and when it changed.
#[derive(Clone, Copy)]
pub struct SizePart {
    /// The size in bytes.
    pub size: u64,
    /// Where the bytes end that may be old.
    pub tail: u64,
    /// When it was last read.
    pub atime: (u32, u32),
    /// When it was last written.
    pub mtime: (u32, u32),
    /// When its inode last changed.
    pub ctime: (u32, u32),
}

/// Where its pages are, and a link's path.
#[derive(Drop)]
pub struct TreePart {
    /// The number of the handle of the root page of its tree.
    pub tree: u64,
    /// The number of the handle of a directory's parent.
    pub parent: u64,
    /// A directory's next entry number.
    pub next: u32,
    /// A link's path.
    pub path: Raw,
}

/// Whether a number is that of a type of files.
fn is_kind(kind: u32) -> bool
    ensures { result ≡ is_kind kind }
{
    matches!(kind, 0 | 1 | 2 | 5)
}

/// Two numbers of 32 bits at the front, and the bytes behind them.
#[tactic(auto, unfolding(crate::specs::InodeParts::pair_at))]
fn pair_of(bytes: &[u8]) -> Result<(Pair, &[u8]), ReadError>
    ensures { Gives (λ x. (x.0, x.1.now)) result (pair_at bytes.now) }
{
    let (first, rest) = u32_at(bytes)?;
    let (second, rest) = u32_at(rest)?;
    Ok(((first, second), rest))
}

/// Three such pairs at the front, and the bytes behind them.
#[tactic(auto, unfolding(crate::specs::InodeParts::pairs_at))]
fn pairs_of(bytes: &[u8]) -> Result<(Pairs, &[u8]), ReadError>
    ensures { Gives (λ x. (x.0, x.1.now)) result (pairs_at bytes.now) }
{
    let (first, rest) = pair_of(bytes)?;
    let (second, rest) = pair_of(rest)?;
    let (third, rest) = pair_of(rest)?;
    Ok(((first, (second, third)), rest))
}

/// The type, the mode, the links, the owner, the group and four zeros at the front, and the bytes behind them.
#[tactic(auto, unfolding(crate::specs::InodeParts::owner_at))]
pub fn owner_of(bytes: &[u8]) -> Result<(OwnerPart, &[u8]), ReadError>
    ensures { Gives (λ x. (x.0, x.1.now)) result (owner_at bytes.now) }
{
    let (((kind, mode), ((nlink, uid), (gid, zeros))), rest) = pairs_of(bytes)?;
    if !is_kind(kind) || mode >= MODES || zeros != 0 {
        return Err(ReadError::Malformed);
    }
    let part = OwnerPart {
        kind,
        mode,
        nlink,
        uid,
        gid,
    };
    Ok((part, rest))
}

/// The size, the tail and the times at the front, and the bytes behind them.
#[tactic(auto, unfolding(crate::specs::InodeParts::sizes_at))]
pub fn sizes_of(bytes: &[u8]) -> Result<(SizePart, &[u8]), ReadError>
    ensures { Gives (λ x. (x.0, x.1.now)) result (sizes_at bytes.now) }
{
    let (size, rest) = u64_at(bytes)?;
    let (tail, rest) = u64_at(rest)?;
    let ((atime, (mtime, ctime)), rest) = pairs_of(rest)?;
    let part = SizePart {
        size,
        tail,
        atime,
        mtime,
        ctime,
    };
    Ok((part, rest))
}

/// The tree, the parent, the next entry number and the path at the front, and the bytes behind them.
#[tactic(auto, unfolding(crate::specs::InodeParts::tree_at))]
pub fn tree_of(alloc: Global, bytes: &[u8]) -> Result<(TreePart, &[u8]), ReadError>
    ensures { Gives (λ x. (x.0, x.1.now)) result (tree_at bytes.now) }
{
    let (tree, rest) = u64_at(bytes)?;
    let (parent, rest) = u64_at(rest)?;
    let (next, rest) = u32_at(rest)?;
    let (path, rest) = path_of(alloc, rest)?;
    let part = TreePart {
        tree,
        parent,
        next,
        path,
    };
    Ok((part, rest))
}

/// The length of a path and the path at the front, and the bytes behind them.
#[tactic(auto, unfolding(crate::specs::InodeParts::path_at))]
fn path_of(alloc: Global, bytes: &[u8]) -> Result<(Raw, &[u8]), ReadError>
    ensures { Gives (λ x. (x.0, x.1.now)) result (path_at bytes.now) }
{
    let (len, rest) = u32_at(bytes)?;
    let (path, rest) = front_at(rest, len as usize)?;
    let path = Raw::of(alloc, path)?;
    Ok((path, rest))
}
