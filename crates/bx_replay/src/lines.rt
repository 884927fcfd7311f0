//! The lines of a schedule, read one after the other.

ghost use Rattle.std.specs.Prelude.{◌≡◌, ◌≢◌, ◌≤◌, ◌==◌, ◌++◌, IfOk, IfErr, IfSome, IfNone, OnSome};
ghost use Rattle.bx_script.specs.declared.line.Line.{Line};
ghost use Rattle.bx_script.specs.ScheduleLine.{spelling};
ghost use Rattle.bx_replay.specs.Replay.{GivesLine, HasLineCause, UnlessRead};
ghost use Rattle.bx_script.specs.Schedule.{HasPlace};

use bx_base::OutOfMemory;
use bx_outside::{LineReader, Next, Source};
use bx_script::{Line, MAX_LINES};
use bx_stops::{Reason, Stop};
use std::alloc::Global;

/// The line with this number, counted from 1, of a schedule; `None` at the end of the input. It is refused where it is
/// outside the grammar or not in its place, and where a schedule can't have so many lines.
pub(crate) fn next_line<S: Source>(
    alloc: Global,
    reader: &mut LineReader,
    input: &mut S,
    number: u64,
) -> Result<Option<Line>, Stop>
    requires { reader.old.most ≡ 18600 }
    ensures gives { S.tells input.old → GivesLine result number (reader.old.ahead ++ S.left input.old)
        (reader.new.ahead ++ S.left input.new) (S.left input.new) }
    ensures in_place { IfOk result (λ found. IfSome found (HasPlace (number == 1))) }
    ensures few { IfOk result (λ found. OnSome found (number ≤ 4294967295)) }
    ensures cause { IfErr result (λ stop. HasLineCause stop number (S.faults input.old) (S.faults input.new)) }
    ensures first { UnlessRead result (S.faults input.new ≡ S.faults input.old) }
    ensures most { reader.new.most ≡ reader.old.most }
    ensures later { S.faults input.old ≤ S.faults input.new }
    ensures keeps_telling { S.tells input.old → S.tells input.new }
{
    match reader.next(input)? {
        Next::End => return Ok(None),
        Next::TooLong => return Err(Stop::Refused(number, Reason::Grammar)),
        Next::Line => {}
    }
    if number > MAX_LINES {
        return Err(Stop::Refused(number, Reason::Grammar));
    }
    match line_at(alloc, reader.line(), number == 1)? {
        Some(line) => Ok(Some(line)),
        None => Err(Stop::Refused(number, Reason::Grammar)),
    }
}

/// The line that a text spells, if it may stand there: the heading is the first line, and no other is a heading.
fn line_at(alloc: Global, text: &[u8], first: bool) -> Result<Option<Line>, OutOfMemory>
    ensures found { IfOk result (λ found. IfSome found (λ line. HasPlace first line × (text.now ≡ spelling line))) }
    ensures none { IfOk result (λ found. IfNone found ((line : Line) → HasPlace first line → text.now ≢ spelling line)) }
{
    match Line::read(alloc, text)? {
        Some(line) if line.is_heading() == first => Ok(Some(line)),
        _ => Ok(None),
    }
}
