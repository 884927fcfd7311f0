//! The lines of the trace that an event comes to.

ghost use Rattle.std.specs.Prelude.{◌≡◌, ◌++◌, IfOk, OnOk, map, reverse};
ghost use Rattle.bx_cluster.specs.Steps.{again_lines, lines_in, reply_line, took_lines};
ghost use Rattle.bx_script.specs.declared.trace_line.TraceLine.TheVariants.{Acted};

use bx_base::{CallNo, OutOfMemory, Point, Raw};
use bx_cluster::{Event, Outcome, ReplyOut};
use bx_script::TraceLine;
use std::alloc::Global;

/// The lines of an event, in their order: the taking, points, replies, and what is sent again.
pub(crate) fn lines_of(
    alloc: Global,
    event: &Event,
    outcome: &Outcome,
) -> Result<Vec<TraceLine>, OutOfMemory>
    ensures { IfOk result (λ lines. lines.items ≡ reverse (lines_in event.now outcome.now)) }
{
    let mut lines = Vec::new(alloc);
    put_taken(alloc, &mut lines, event, outcome.took)?;
    put_points(&mut lines, outcome.points.items())?;
    put_replies(alloc, &mut lines, outcome.replies.items())?;
    put_again(alloc, &mut lines, &outcome.again)?;
    Ok(lines)
}

/// Puts the line of a call that was taken behind lines, where one was.
fn put_taken(
    alloc: Global,
    lines: &mut Vec<TraceLine>,
    event: &Event,
    took: Option<CallNo>,
) -> Result<(), OutOfMemory>
    ensures { OnOk result (lines.new.items ≡ lines.old.items ++ took_lines event.now took) }
{
    let Event::Call {
        node,
        client,
        bytes,
        ..
    } = event
    else {
        return Ok(());
    };
    let Some(call) = took else {
        return Ok(());
    };
    lines.push(TraceLine::Took {
        call,
        node: *node,
        client: *client,
        datagram: Raw::of(alloc, bytes)?,
    })?;
    Ok(())
}

/// Puts the lines of points behind lines.
fn put_points(lines: &mut Vec<TraceLine>, points: &[Point]) -> Result<(), OutOfMemory>
    ensures { OnOk result (lines.new.items ≡ lines.old.items ++ map (λ point. Acted point) points.now) }
{
    for point in points {
        lines.push(TraceLine::Acted(*point))?;
    }
    Ok(())
}

/// Puts the lines of replies behind lines.
fn put_replies(
    alloc: Global,
    lines: &mut Vec<TraceLine>,
    replies: &[ReplyOut],
) -> Result<(), OutOfMemory>
    ensures { OnOk result (lines.new.items ≡ lines.old.items ++ map reply_line replies.now) }
{
    for reply in replies {
        lines.push(TraceLine::Reply {
            call: reply.call,
            reply: Raw::of(alloc, reply.bytes.bytes())?,
        })?;
    }
    Ok(())
}

/// Puts the line of a kept answer that was sent again behind lines, where one was.
fn put_again(
    alloc: Global,
    lines: &mut Vec<TraceLine>,
    again: &Option<ReplyOut>,
) -> Result<(), OutOfMemory>
    ensures { OnOk result (lines.new.items ≡ lines.old.items ++ again_lines again.now) }
{
    let Some(reply) = again else {
        return Ok(());
    };
    lines.push(TraceLine::Again {
        node: reply.node,
        client: reply.client,
        reply: Raw::of(alloc, reply.bytes.bytes())?,
    })?;
    Ok(())
}
