//! Runs the lines of a table of cases on a file tree, and prints what they are answered. A line is
//!
//! - `# TEXT`, which is printed as it stands;
//! - `tree VOLUME AREAS NEXT`: from here on the tree is that of a new volume, whose root gives its next entry this number;
//! - `listing`, which prints the tree's listing;
//! - `times COUNT CALL`: a call so many times, without its answers;
//! - or a call (`reading.rt`), whose answer is printed (`telling.rt`).
//!
//! The table is `stdin`. Its answers, `stdout`, are those of an independent model of the file tree.
#![tactic(auto)]

mod opening;
mod reading;
mod running;
mod telling;

use std::io;

/// The tree to begin with: its volume, how many areas it has, and the number of the root's next entry.
const FIRST: &str = "7 1 3";

fn main(rt: HostRuntime) -> io::Result<()> {
    let alloc = rt.alloc();
    let Ok(mut tree) = opening::opened(alloc, FIRST) else {
        return println!(rt; "out of memory");
    };
    let outcome = running::run_all(&rt, alloc, &mut tree);
    drop(tree);
    outcome
}
