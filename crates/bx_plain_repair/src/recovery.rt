//! What a recovery answers.

use bx_base::Point;

/// What a recovery came to.
#[derive(Clone, Copy)]
pub enum Recovery {
    /// A record is open, surely, whose call nobody was told of: it acted, at this point.
    Found(Point),
    /// The log was closed: a node may begin.
    Closed,
}
