//! The files of cases that a program runs.

use anyhow::Error;
use std::fs;
use std::io::Input;
use std::rt::Files;

/// Runs what stands in each file that a line of standard input names.
pub fn run_files<R: AllocGlobal + Files + Input, F: Fn(&str) -> Result<(), Error>>(
    rt: &R,
    run: F,
) -> Result<(), Error>
    requires { F.IsAlwaysCallable run }
{
    for name in rt.lines(rt.alloc()) {
        let name = name?;
        let text = fs::read_to_string(rt, name.as_str())?;
        run(text.as_str())?;
    }
    Ok(())
}
