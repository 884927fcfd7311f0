//! The lines of a trace.

ghost use Rattle.std.specs.Prelude.{◌≡◌, ◌++◌, List, OnOk, OnErr};
ghost use Rattle.std.specs.List.{AllByRecursion};
ghost use Rattle.bx_base.specs.Text.{ended};
ghost use Rattle.bx_script.specs.declared.trace_line.TraceLine.TheVariants.{Acted};
ghost use Rattle.bx_script.specs.TraceText.{InTraceRange, trace_spelling, trace_text};

use crate::text::put_line;
use bx_base::{CallNo, OutOfMemory, Point, Raw};

/// A line of a trace: something that was seen to happen.
#[derive(Drop)]
pub enum TraceLine {
    /// `took CALL NODE CLIENT HEX`: a node took a call. Calls are numbered from 1 as they are taken.
    Took {
        /// The call's number.
        call: CallNo,
        /// The node.
        node: u32,
        /// The client.
        client: u32,
        /// The call's bytes.
        datagram: Raw,
    },
    /// `point CALL MOMENT SPARE MADE`: the call's place in the one order of all calls.
    Acted(Point),
    /// `reply CALL HEX`: the call's reply was sent.
    Reply {
        /// The call's number.
        call: CallNo,
        /// The reply's bytes.
        reply: Raw,
    },
    /// `again NODE CLIENT HEX`: a kept reply was sent once more.
    Again {
        /// The node.
        node: u32,
        /// The client.
        client: u32,
        /// The reply's bytes.
        reply: Raw,
    },
}

impl TraceLine {
    /// Puts the line's bytes, with its line feed, behind a text. Without memory the text is as it was.
    pub fn append(&self, text: &mut Vec<u8>) -> Result<(), OutOfMemory>
        ensures ok { OnOk result (text.new.items ≡ text.old.items ++ ended (trace_spelling self.now)) }
        ensures err { OnErr result (text.new.items ≡ text.old.items) }

        // What the fields hold is in range.
        ensures in_range { InTraceRange self.now }
    {
        match self {
            TraceLine::Took {
                call,
                node,
                client,
                datagram,
            } => {
                let numbers = [*call, u64::from(*node), u64::from(*client)];
                put_line(text, b"took", &numbers, datagram.bytes())
            }
            TraceLine::Acted(point) => append_point(text, *point),
            TraceLine::Reply { call, reply } => put_line(text, b"reply", &[*call], reply.bytes()),
            TraceLine::Again {
                node,
                client,
                reply,
            } => {
                let numbers = [u64::from(*node), u64::from(*client)];
                put_line(text, b"again", &numbers, reply.bytes())
            }
        }
    }
}

// Puts the line of a point behind a text.
fn append_point(text: &mut Vec<u8>, point: Point) -> Result<(), OutOfMemory>
    ensures ok { OnOk result (text.new.items ≡ text.old.items ++ ended (trace_spelling (Acted point))) }
    ensures err { OnErr result (text.new.items ≡ text.old.items) }
    ensures in_range { InTraceRange (Acted point) }
{
    let numbers = [point.call, point.moment, point.spare];
    put_line(text, b"point", &numbers, &point.made.to_be_bytes())
}

/// Two lists of lines in range have different texts.
pub fn one_trace()
    ensures { (a b : List TraceLine) → AllByRecursion InTraceRange a → AllByRecursion InTraceRange b → trace_text a ≡ trace_text b → a ≡ b }
{}
