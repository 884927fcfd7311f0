//! What the formats make of bytes from outside, and how they write it again.
//!
//! Standard input names files, one a line, whose rows (`Row` of `bx_tests_lines`) ask each by a kind (`kinds.rt`) and bytes. The answer is
//! `none` where they aren't of the kind, or its fields and the bytes as they are written again. It is printed of each row that it holds, or
//! what was answered.
#![tactic(auto)]

mod calls;
mod kinds;
mod layouts;
mod lines;
mod numbers;
mod packets;
mod pages;
mod sample;
mod states;
mod wire;

use anyhow::Error;
use bx_tests_lines::{Line, Row, bytes_of, run_files};
use std::alloc::Global;

fn main(rt: HostRuntime) -> Result<(), Error> {
    run_files(&rt, |text| run_all(&rt, rt.alloc(), text))
}

/// Asks what the rows of a file ask.
fn run_all(rt: &impl Print, alloc: Global, text: &str) -> Result<(), Error> {
    for text in text.split("\n\n") {
        let row = Row::read(text)?;
        let answer = answer(alloc, row.asked)?;
        row.tell(rt, answer.as_str())?;
    }
    Ok(())
}

/// What a kind and bytes are answered.
fn answer(alloc: Global, asked: &str) -> Result<String, Error> {
    let (word, spelled) = asked.split_once(' ').unwrap_or((asked, ""));
    let bytes = bytes_of(alloc, spelled)?;
    let mut line = Line::new(alloc);
    kinds::tell(alloc, &mut line, word, bytes.as_slice())?;
    line.into_text()
}
