//! Sessions.

ghost use Rattle.std.specs.Prelude.{◌≡◌};
ghost use Rattle.bx_rows.specs.Rows.{claimed, dead, expired, is_of};

/// A session of a node with the cluster.
#[derive(Clone, Copy, PartialEq, Eq)]
pub struct SessionRow {
    /// Its number, from 1 on, which no other session has had.
    pub number: u64,
    /// The node, below 4.
    pub node: u32,
    /// The node's boot.
    pub boot: u64,
    /// The slot of the log that it writes to, below 8.
    pub slot: u32,
    /// When it ends, in milliseconds.
    pub until: u64,
    /// 1 where it is dead, else 0.
    pub dead: u32,
    /// The session that recovers it once it is dead, or 0.
    pub by: u64,
}

/// Whether it is the live session of a node and boot.
pub(crate) fn is_live_of(row: &SessionRow, node: u32, boot: u64) -> bool
    ensures { result ≡ is_of node boot row.now }
{
    row.node == node && row.boot == boot && row.dead == 0
}

/// The row, dead.
pub(crate) fn dead_row(row: &SessionRow) -> SessionRow
    ensures { result ≡ dead row.now }
{
    SessionRow { dead: 1, ..*row }
}

/// The row, dead where it is that of this session.
pub(crate) fn expired_row(row: &SessionRow, session: u64) -> SessionRow
    ensures { result ≡ expired session row.now }
{
    if row.number == session {
        dead_row(row)
    } else {
        *row
    }
}

/// The row, claimed by another session where it is that of this dead one.
pub(crate) fn claimed_row(row: &SessionRow, session: u64, by: u64) -> SessionRow
    ensures { result ≡ claimed session by row.now }
{
    if row.number == session {
        SessionRow { by, ..*row }
    } else {
        *row
    }
}
