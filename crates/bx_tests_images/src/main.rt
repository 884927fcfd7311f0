//! What is read off images of disks that were made outside, and what is written of a volume that is made.
//!
//! Standard input names files, one a line. A file begins with lines of what stands for all of its rows, and its rows (`Row` of
//! `bx_tests_lines`) stand behind it. A line is
//!
//! - `disks SECTORS ..`: how many sectors each disk has;
//! - `state BYTES`: the state that the machines agree on;
//! - `at DISKS SECTOR BYTES`: what stands in the sectors from that one on, on each of the disks (with commas between them), with zeros
//!   behind it up to the end of its last sector. What is past the end of a disk is left out, and all other sectors are zeros;
//! - `stop CALLS`: the rack stops after so many calls;
//! - `ask` and what is asked (`asks.rt`).
//!
//! Of two lines of a kind the later one counts. It is printed of each row that it holds, or what was answered.
#![tactic(auto)]

mod asks;
mod audits;
mod blocks;
mod cells;
mod images;
mod setting;
mod volumes;

use anyhow::{Error, anyhow};
use bx_tests_lines::{Row, run_files};
use std::alloc::Global;

fn main(rt: HostRuntime) -> Result<(), Error> {
    run_files(&rt, |text| run_all(&rt, rt.alloc(), text))
}

/// Asks what the rows of a file ask.
fn run_all(rt: &impl Print, alloc: Global, text: &str) -> Result<(), Error> {
    let Some((shared, rows)) = text.split_once("\n\n") else {
        return Err(anyhow!("a file without rows"));
    };
    for text in rows.split("\n\n") {
        let row = Row::read(text)?;
        let answer = asks::answer(alloc, shared, row.asked)?;
        row.tell(rt, answer.as_str())?;
    }
    Ok(())
}
