//! Why an entry wasn't put.

use thiserror::Error;

/// Why an entry wasn't put into a page. The page is as it was.
#[derive(Clone, Copy, PartialEq, Eq, Debug, Error)]
pub enum PageError {
    /// The page's bytes don't suffice.
    #[error("the page has no room")]
    NoRoom,
    /// Memory ran out.
    #[error("out of memory")]
    OutOfMemory,
}
