//! What the command is run on.

use anyhow::{Error, anyhow};
use std::alloc::{AllocError, Global};

/// What a row gives the command. Which calls fail is counted from 1.
#[derive(Drop)]
pub(crate) struct Row {
    pub name: String,
    /// The words of the command line.
    pub words: Vec<String>,
    pub input: Vec<u8>,
    /// Which reads of the input fail.
    pub reads: Vec<u64>,
    /// Which writes of the output fail.
    pub writes: Vec<u64>,
    /// Which writes of the errors fail.
    pub tells: Vec<u64>,
    /// Which calls of the bench fail.
    pub calls: Vec<u64>,
    /// What is done to the rack before the command runs, and when it stops.
    pub rack: Vec<String>,
}

impl Row {
    /// A row that gives nothing.
    pub(crate) fn new(alloc: Global) -> Row {
        Row {
            name: String::new(alloc),
            words: Vec::new(alloc),
            input: Vec::new(alloc),
            reads: Vec::new(alloc),
            writes: Vec::new(alloc),
            tells: Vec::new(alloc),
            calls: Vec::new(alloc),
            rack: Vec::new(alloc),
        }
    }

    /// The row of these lines.
    pub(crate) fn read(alloc: Global, lines: &str) -> Result<Row, Error> {
        let mut row = Row::new(alloc);
        for line in lines.split('\n') {
            row.take(alloc, line)?;
        }
        Ok(row)
    }

    /// Takes a line.
    fn take(&mut self, alloc: Global, line: &str) -> Result<(), Error> {
        let Some((mark, text)) = line.split_once(' ') else {
            return Err(anyhow!("a line without a space"));
        };
        match mark {
            "row" => Ok(self.name.push_str(text)?),
            "word" => Ok(self.words.push(String::from_str(alloc, text)?)?),
            "rack" => Ok(self.rack.push(String::from_str(alloc, text)?)?),
            "<" => Ok(put_line(&mut self.input, text)?),
            "<." => Ok(self.input.extend_from_slice(text.as_bytes())?),
            "reads" => put_numbers(&mut self.reads, text),
            "writes" => put_numbers(&mut self.writes, text),
            "tells" => put_numbers(&mut self.tells, text),
            "calls" => put_numbers(&mut self.calls, text),
            _ => Err(anyhow!("a line of no kind")),
        }
    }
}

/// Puts a line and its feed behind what there is.
fn put_line(input: &mut Vec<u8>, text: &str) -> Result<(), AllocError> {
    input.extend_from_slice(text.as_bytes())?;
    input.push(b'\n')?;
    Ok(())
}

/// Puts the numbers of a text behind what there is.
fn put_numbers(numbers: &mut Vec<u64>, text: &str) -> Result<(), Error> {
    for word in text.split(' ') {
        match word.parse::<u64>() {
            Ok(number) => numbers.push(number)?,
            Err(_) => return Err(anyhow!("no number")),
        }
    }
    Ok(())
}
