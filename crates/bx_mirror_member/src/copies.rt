//! Copies that a member makes of itself onto its partner.

ghost use Rattle.std.specs.Prelude.{◌≡◌, ◌+◌, ◌<◌, ◌≤◌, IfSome};
ghost use Rattle.bx_mirror_laws.specs.Acting.{boot_in};
ghost use Rattle.bx_mirror_member.specs.Standing.{copies, copy_from, current_piece, is_named, is_news, piece_at, room_in};
ghost use Rattle.bx_mirror_member.specs.declared.copies.Progress.TheVariants.{Next};
ghost use Rattle.bx_mirror_member.specs.Steps.{IsProgress, IsWithin, gone_on, is_last_piece};

use crate::member::Member;
use bx_global::Change;
use bx_mirror_packets::CopiedBody;
use bx_rows::DeviceRow;

/// How many sectors a piece of a copy has; the last one has what is left.
const PIECE: u64 = 64;

/// A piece of a copy that is to be sent.
#[derive(Clone, Copy)]
pub struct Piece {
    /// The epoch of the copy.
    pub epoch: u64,
    /// The first sector.
    pub place: u64,
    /// How many sectors.
    pub sectors: u32,
}

/// What an acknowledged piece makes of a copy.
#[derive(Clone, Copy)]
pub enum Progress {
    /// Nothing: it isn't the current piece of a copy that the member makes.
    Unchanged,
    /// This piece is to be sent next.
    Next(Piece),
    /// All pieces were acknowledged: this change is to be proposed.
    Whole(Change),
}

/// Whether a row is of another epoch than the one that is known.
pub(crate) fn is_news(known: &Option<DeviceRow>, row: &DeviceRow) -> bool
    ensures { result ≡ is_news known.now row.now }
{
    match known {
        None => true,
        Some(known) => known.epoch != row.epoch,
    }
}

/// The mode in which member B (`second`), or A, is copied from.
pub(crate) fn copy_from(second: bool) -> u32
    ensures { result ≡ copy_from second }
{
    if second { 4 } else { 3 }
}

/// The boot of a member that a row names.
fn boot_in(row: &DeviceRow, second: bool) -> u64
    ensures { result ≡ boot_in second row.now }
{
    if second { row.boot_b } else { row.boot_a }
}

/// Whether a row names a member's boot.
pub(crate) fn is_named(member: &Member, row: &DeviceRow) -> bool
    ensures { result ≡ is_named member.now row.now }
{
    boot_in(row, member.is_second()) == member.boot
}

/// Whether a member makes a copy in a row.
pub(crate) fn copies(member: &Member, row: &DeviceRow) -> bool
    ensures { result ≡ copies member.now row.now }
{
    is_named(member, row) && row.mode == copy_from(member.is_second())
}

impl Member {
    /// The piece of a copy in an epoch that begins at a place.
    pub(crate) fn piece_at(&self, epoch: u64, place: u64) -> Piece
        requires { place < room_in self.now }
        ensures { result ≡ piece_at self.now epoch place }
    {
        let left = self.room() - place;
        Piece {
            epoch,
            place,
            sectors: left.min(PIECE) as u32,
        }
    }

    /// The current piece of a copy that it makes; `None` exactly where it makes none. It takes no memory.
    pub fn piece(&self) -> Option<Piece>
        ensures is { result ≡ current_piece self.now }
        ensures within { IfSome result (λ piece. piece.place + piece.sectors ≤ room_in self.now) }
    {
        let Some(row) = self.row else {
            return None;
        };
        if !copies(self, &row) || self.place == 0 {
            return None;
        }
        Some(self.piece_at(row.epoch, self.place))
    }

    /// Whether no piece stands behind the current one.
    fn is_last_piece(&self) -> bool
        ensures { result ≡ is_last_piece self.now }
    {
        self.room() - self.place <= PIECE
    }

    /// What it makes of a copy that its partner has a piece. It takes no memory.
    pub fn progress(&self, copied: &CopiedBody) -> Progress
        ensures is { IsProgress self.now copied.now result }
        ensures within { IsWithin (room_in self.now) result }
    {
        let Some(row) = self.acting(copied.device, copied.epoch) else {
            return Progress::Unchanged;
        };
        if row.mode != copy_from(self.is_second()) || copied.place != self.place {
            return Progress::Unchanged;
        }
        if self.is_last_piece() {
            return Progress::Whole(self.shift(&row, 0));
        }
        Progress::Next(self.piece_at(row.epoch, self.place + PIECE))
    }

    /// Goes on with a piece. It takes no memory.
    pub fn go_on(&mut self, piece: Piece)
        requires { piece.place < room_in self.old }
        ensures { self.new ≡ gone_on (Next piece) self.old }
    {
        self.place = piece.place;
    }
}
