//! What was granted of a block.

ghost use Rattle.std.specs.Prelude.{◌≡◌};
ghost use Rattle.bx_lock_tables.specs.Rows.{clashing, has_clash, mode_for, row_of};

use bx_base::Mode;

/// What a session was granted last of a block.
#[derive(Clone, Copy)]
pub struct Row {
    /// The session.
    pub session: u64,
    /// How it was granted.
    pub mode: Mode,
    /// The number of the request.
    pub number: u64,
    /// The index that the grant carried.
    pub index: u64,
    /// Whether it stands: it wasn't released.
    pub stands: bool,
}

/// The row of a session.
pub(crate) fn find_row(rows: &[Row], session: u64) -> Option<Row>
    ensures { result ≡ row_of rows.now session }
{
    for row in rows {
        if row.session == session {
            return Some(*row);
        }
    }
    None
}

/// Whether two sessions can't have a block so.
pub(crate) fn clash(mode: Mode, other: Mode) -> bool
    ensures { result ≡ clashing mode other }
{
    match mode {
        Mode::Exclusive => true,
        Mode::Shared => match other {
            Mode::Exclusive => true,
            Mode::Shared => false,
        },
    }
}

/// Whether what another session has stands against a mode.
pub(crate) fn any_clash(rows: &[Row], session: u64, mode: Mode) -> bool
    ensures { result ≡ has_clash rows.now session mode }
{
    rows.iter().any(|row| row.stands && row.session != session && clash(mode, row.mode))
}

/// How a session gets a block that it wants so: exclusively, too, where it has it exclusively by an older request.
pub(crate) fn mode_to(row: &Option<Row>, mode: Mode) -> Mode
    ensures { result ≡ mode_for row.now mode }
{
    match row {
        None => mode,
        Some(row) => {
            if row.stands {
                match row.mode {
                    Mode::Exclusive => Mode::Exclusive,
                    Mode::Shared => mode,
                }
            } else {
                mode
            }
        }
    }
}
