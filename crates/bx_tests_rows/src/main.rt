//! Runs the command on rows, and prints of each whether the command answers what the row says, or else what it answers.
//!
//! Standard input names files of rows, one a line. In a file paragraphs stand with one empty line between two. A paragraph is a row, or
//! lines `let NAME TEXT`: in all lines behind it, `{NAME}` stands for the text. The lines of a row are, in this order,
//!
//! - `row NAME`, its name;
//! - `word TEXT` for each word of the command line;
//! - `reads`, `writes`, `tells`, `calls` with numbers: which reads of the input fail, which writes of the output and of the errors, and
//!   which calls of the bench, each counted from 1. Without such a line none fails;
//! - `rack` and what is done to the rack, which has no disks at first, before the command runs (`racks.rt`);
//! - `< TEXT` for each line of the input, and `<. TEXT` for one without its line feed;
//! - `= STATUS`, the exit status that the command answers;
//! - `> TEXT` for each line of the output, and then `! TEXT` for each line of the errors.
#![tactic(auto)]

mod racks;
mod row;
mod running;
mod shorthand;

use anyhow::{Error, anyhow};
use bx_tests_lines::run_files;
use row::Row;
use running::answer;
use shorthand::Shorthand;
use std::alloc::Global;

fn main(rt: HostRuntime) -> Result<(), Error> {
    run_files(&rt, |text| run_all(&rt, rt.alloc(), text))
}

/// Runs the rows of a file.
fn run_all(rt: &impl Print, alloc: Global, file: &str) -> Result<(), Error> {
    let mut shorthand = Shorthand::new(alloc);
    for paragraph in file.split("\n\n") {
        if paragraph.starts_with("let ") {
            shorthand.learn(alloc, paragraph)?;
        } else {
            let text = shorthand.written_out(alloc, paragraph)?;
            run(rt, alloc, text.as_str())?;
        }
    }
    Ok(())
}

/// Runs a row.
fn run(rt: &impl Print, alloc: Global, text: &str) -> Result<(), Error> {
    let Some((given, wanted)) = text.split_once("\n= ") else {
        return Err(anyhow!("a row without a status"));
    };
    let row = Row::read(alloc, given)?;
    let answer = answer(alloc, &row)?;
    if answer.as_str().strip_suffix('\n') == Some(wanted.trim_end()) {
        println!(rt; "{}: holds", row.name)?;
    } else {
        print!(rt; "{}: = {answer}", row.name)?;
    }
    Ok(())
}
