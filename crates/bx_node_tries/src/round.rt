//! What attempts put together.

ghost use Rattle.std.specs.Prelude.{◌≡◌};
ghost use Rattle.bx_node_tries.specs.Tries.{is_attempted};

use crate::message::Message;
use bx_base::{CallNo, Point, Raw};
use bx_records::Wants;
use bx_views::Attempt;

/// How often blocks may be written first for a call.
const MOST_INNERS: u32 = 200_000;

/// A call that waits.
#[derive(Drop)]
pub struct Waiting {
    /// Its number.
    pub number: CallNo,
    /// Whose it is.
    pub client: u32,
    /// Its bytes.
    pub message: Message,
    /// How often blocks were written first, so that it can act.
    pub inners: u32,
    /// Whether it is attempted no more: what it changes may have been written in a session that ended.
    pub is_over: bool,
}

impl Waiting {
    /// Whether it is attempted still: nothing of it may have been written in a session that ended, and blocks weren't written first for it too often.
    pub fn is_attempted(&self) -> bool
        ensures { result ≡ is_attempted self.now }
    {
        !self.is_over && self.inners < MOST_INNERS
    }
}

/// A call that acted and is answered.
#[derive(Drop)]
pub struct Said {
    /// Its point.
    pub point: Point,
    /// Whose it is.
    pub client: u32,
    /// Its bytes.
    pub call: Raw,
    /// The reply's bytes.
    pub reply: Raw,
}

/// A call whose attempt changes blocks: a record of them is to be begun.
#[derive(Drop)]
pub struct Begun {
    /// The call.
    pub call: Waiting,
    /// What its attempt answered, which is a Change or an Inner.
    pub attempt: Attempt,
}

/// What comes of the calls that wait.
#[derive(Drop)]
pub struct Round {
    /// The answers, in the order in which the calls acted.
    pub said: Vec<Said>,
    /// The calls that still wait, in their order.
    pub waiting: Vec<Waiting>,
    /// The call that begins a record.
    pub begun: Option<Begun>,
    /// What the calls that wait for blocks need, in their order.
    pub needs: Vec<Wants>,
}
