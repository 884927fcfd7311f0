//! Lines of a source, of a bounded length, read in pieces.

ghost use Rattle.std.specs.Prelude.{◌≡◌, ◌≤◌, ◌<◌, ◌^◌, List, [], ◌++◌, length, IfOk, OnOk, OnErr, IsTrue, IsFalse};
ghost use Rattle.bx_base.specs.Faults.{Rose};
ghost use Rattle.bx_outside.specs.LineReader.{LinesAhead, TakesLine, IsTooLong, IsPartial, MeetsFeed, MeetsNoFeed};
ghost use Rattle.bx_outside.specs.declared.line_reader.LineError.TheVariants.{Fault, OutOfMemory};
ghost use Rattle.bx_outside.specs.Outcome.{IfLine, IfEnd, IfTooLong, IfFault, IfMemory};

use crate::source::{ReadFault, Source};
use bx_base::OutOfMemory;
use std::alloc::{AllocError, Global};
use std::marker::Model;
use thiserror::Error;

/// What stands next in a source of lines.
#[derive(Clone, Copy, PartialEq, Eq)]
pub enum Next {
    /// A line, which `LineReader::line` gives.
    Line,
    /// The end of the source.
    End,
    /// A line that is longer than a line may be.
    TooLong,
}

/// Why no line was read.
#[derive(Clone, Copy, PartialEq, Eq, Debug, Error)]
pub enum LineError {
    /// The source failed.
    #[error("read fault")]
    Fault,
    /// Memory ran out.
    #[error("out of memory")]
    OutOfMemory,
}

impl From<ReadFault> for LineError {
    ghost from_gives = { λ _ e. e ≡ Fault };

    fn from(_fault: ReadFault) -> LineError {
        LineError::Fault
    }
}

impl From<AllocError> for LineError {
    ghost from_gives = { λ _ e. e ≡ OutOfMemory };

    fn from(_error: AllocError) -> LineError {
        LineError::OutOfMemory
    }
}

/// How many bytes one read asks for.
const PIECE: usize = 4096;

/// Reads lines. It keeps one piece of the source and one line, however long the source is.
#[derive(Drop)]
pub struct LineReader {
    piece: Vec<u8>,
    start: usize,
    end: usize,
    line: Vec<u8>,
    most: usize,
}

impl Model for LineReader {
    ghost use Rattle.std.specs.Prelude.{◌≡◌, ◌≤◌, ◌<◌, ◌^◌, ◌-◌, take, drop, length};
    ghost use Rattle.bx_outside.specs.LineReader.{LinesAhead};

    ghost Value = { LinesAhead };

    ghost view = { λ r. record { ahead = drop r.start (take r.end r.piece.items); line = r.line.items; most = r.most } };

    ghost invariant = { λ r. (0 < length r.piece.items) × (r.start ≤ r.end) × (r.end ≤ length r.piece.items) };
}

impl LineReader {
    /// A reader of lines of at most `most` bytes, the line feed not counted.
    pub fn new(alloc: Global, most: usize) -> Result<LineReader, OutOfMemory>
        requires { most < 2 ^ 32 }
        ensures { IfOk result (λ reader. reader ≡ record { ahead = []; line = []; most = most }) }
    {
        Ok(LineReader {
            piece: vec![in alloc; 0; PIECE]?,
            start: 0,
            end: 0,
            line: Vec::new(alloc),
            most,
        })
    }

    /// The line that the last call of `next` read, without its line feed.
    pub fn line(&self) -> &[u8]
        ensures { result.now ≡ self.now.line }
    {
        self.line.as_slice()
    }

    /// Reads to the end of the next line. A carriage return is a byte as any other.
    /// After a line that is too long, or an error, the reader isn't to be used again.
    pub fn next<S: Source>(&mut self, source: &mut S) -> Result<Next, LineError>
        requires { self.old.most < 2 ^ 32 }

        ensures line { S.tells source.old → IfLine result (TakesLine (self.old.ahead ++ S.left source.old) self.new (S.left source.new)) }
        ensures end { S.tells source.old → IfEnd result ((self.old.ahead ++ S.left source.old ≡ []) × (S.left source.new ≡ [])) }
        ensures too_long { S.tells source.old → IfTooLong result (IsTooLong (self.old.ahead ++ S.left source.old) self.old.most) }
        ensures no_fault { OnOk result (S.faults source.new ≡ S.faults source.old) }
        ensures memory { IfMemory result (S.faults source.new ≡ S.faults source.old) }
        ensures fault { IfFault result (Rose (S.faults source.old) (S.faults source.new)) }
        ensures fault_keeps { S.tells source.old → IfFault result (IsPartial (self.old.ahead ++ S.left source.old) self.new (S.left source.new)) }
        ensures most { self.new.most ≡ self.old.most }
        ensures later { S.faults source.old ≤ S.faults source.new }
        ensures keeps_telling { S.tells source.old → S.tells source.new }
    {
        self.line.clear();
        while self.line.len() <= self.most {
            if !self.refill(source)? {
                return Ok(if self.line.is_empty() {
                    Next::End
                } else {
                    Next::Line
                });
            }
            if self.take_up_to_feed()? {
                return Ok(if self.line.len() <= self.most {
                    Next::Line
                } else {
                    Next::TooLong
                });
            }
        }
        Ok(Next::TooLong)
    }

    // Reads a piece where no byte is ahead, and answers whether one is then.
    fn refill<S: Source>(&mut self, source: &mut S) -> Result<bool, ReadFault>
        ensures keeps { S.tells source.old → self.old.ahead ++ S.left source.old ≡ self.new.ahead ++ S.left source.new }
        ensures some { IfOk result (λ some. IsTrue some → 0 < length self.new.ahead) }
        ensures none { IfOk result (λ some. IsFalse some → self.new.ahead ≡ []) }
        ensures end { S.tells source.old → IfOk result (λ some. IsFalse some → S.left source.new ≡ []) }
        ensures no_fault { OnOk result (S.faults source.new ≡ S.faults source.old) }
        ensures fault { OnErr result (Rose (S.faults source.old) (S.faults source.new)) }
        ensures fault_ahead { OnErr result (self.new.ahead ≡ []) }
        ensures line { self.new.line ≡ self.old.line }
        ensures most { self.new.most ≡ self.old.most }
        ensures later { S.faults source.old ≤ S.faults source.new }
        ensures keeps_telling { S.tells source.old → S.tells source.new }
    {
        if self.start < self.end {
            return Ok(true);
        }
        self.start = 0;
        self.end = 0;
        self.end = source.read(self.piece.as_mut_slice())?;
        Ok(self.end > 0)
    }

    // Moves the bytes ahead, up to the first line feed, to the line, and answers whether a line feed was met.
    // The line feed itself is left out.
    fn take_up_to_feed(&mut self) -> Result<bool, AllocError>
        ensures met { IfOk result (λ met. IsTrue met → MeetsFeed self.old self.new) }
        ensures unmet { IfOk result (λ met. IsFalse met → MeetsNoFeed self.old self.new) }
        ensures most { self.new.most ≡ self.old.most }
    {
        let window = &self.piece[self.start..self.end];
        match window.iter().position(|byte| *byte == b'\n') {
            Some(at) => {
                self.line.extend_from_slice(&window[..at])?;
                self.start += at + 1;
                Ok(true)
            }
            None => {
                self.line.extend_from_slice(window)?;
                self.start = self.end;
                Ok(false)
            }
        }
    }
}
