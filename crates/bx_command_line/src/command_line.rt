//! A command line, and the words that spell it.

ghost use Rattle.std.specs.Prelude.{◌≡◌, ◌↔◌, IfOk, IsTrue, [], ◌∷◌, map, string_bytes};
ghost use Rattle.clap.specs.Words.{HasMatchesOf, app_of};
ghost use Rattle.bx_command_line.specs.CommandLines.{AreWordsOf, format_app, grammar, make_app};

use crate::numbers::{format_line, make_line};
use bx_base::OutOfMemory;
use clap::error::ErrorKind;
use clap::{Arg, ArgMatches, Command};
use std::alloc::{AllocError, Global};

/// What a command line asks for.
#[derive(Clone, Copy, PartialEq, Eq, Debug)]
pub enum CommandLine {
    /// `replay`: a schedule is read from the input, and its trace written to the output.
    Replay,
    /// `format V D A`: the rack is made a new volume.
    Format {
        /// The volume's number.
        volume: u64,
        /// How many devices it has, 1 to 4.
        devices: u32,
        /// How many areas it has, 1 to 64.
        areas: u16,
    },
    /// `check`: the rack is read, and the listing of its file tree written to the output.
    Check,
    /// `make S N C`: a schedule is generated and replayed, and six lines that tell of the replay written to the output.
    Make {
        /// What the generator begins with.
        seed: u64,
        /// How many nodes there are, 1 to 4.
        nodes: u32,
        /// How many calls there are, 1 to 20000.
        calls: u32,
    },
}

impl CommandLine {
    /// The command line that these words spell, which are those after the program's name; `None` where they spell none. Its numbers are in
    /// their ranges.
    ///
    /// Fails for want of memory alone.
    pub fn read(alloc: Global, words: &[String]) -> Result<Option<CommandLine>, OutOfMemory>
        ensures { IfOk result (AreWordsOf (map string_bytes words.now)) }
    {
        let command = command(alloc)?;
        match command.try_get_matches_from(words) {
            Ok(matches) => Ok(line_of(&matches, words)),
            Err(error) => match error.kind() {
                ErrorKind::OutOfMemory => Err(OutOfMemory),
                _ => Ok(None),
            },
        }
    }
}

// The command, as `clap` is told of it. Nothing answers `help` or `--help`: the line that tells which command lines there are comes
// for them as for any other words.
fn command<'a>(alloc: Global) -> Result<Command<'a>, AllocError>
    ensures { IfOk result (λ command. app_of command ≡ grammar) }
{
    Command::new(alloc, "boxwood")
        .no_binary_name(true)
        .subcommand_required(true)
        .disable_help_flag(true)
        .disable_help_subcommand(true)
        .subcommand(Command::new(alloc, "replay"))?
        .subcommand(format(alloc)?)?
        .subcommand(Command::new(alloc, "check"))?
        .subcommand(make(alloc)?)
}

// The command `format`.
fn format<'a>(alloc: Global) -> Result<Command<'a>, AllocError>
    ensures { IfOk result (λ command. app_of command ≡ format_app) }
{
    Command::new(alloc, "format")
        .arg(Arg::new(alloc, "V").required(true))?
        .arg(Arg::new(alloc, "D").required(true))?
        .arg(Arg::new(alloc, "A").required(true))
}

// The command `make`.
fn make<'a>(alloc: Global) -> Result<Command<'a>, AllocError>
    ensures { IfOk result (λ command. app_of command ≡ make_app) }
{
    Command::new(alloc, "make")
        .arg(Arg::new(alloc, "S").required(true))?
        .arg(Arg::new(alloc, "N").required(true))?
        .arg(Arg::new(alloc, "C").required(true))
}

// The command line of words that `clap` takes. It takes `replay --` too, and any texts as numbers, so the words are read besides.
fn line_of(matches: &ArgMatches<'_>, words: &[String]) -> Option<CommandLine>
    ensures { HasMatchesOf grammar (map string_bytes words.now) matches.now → AreWordsOf (map string_bytes words.now) result }
{
    let name = matches.subcommand_name()?;
    if name == "format" {
        format_line(words)
    } else if name == "make" {
        make_line(words)
    } else if name == "replay" && are_only(words, name) {
        Some(CommandLine::Replay)
    } else if name == "check" && are_only(words, name) {
        Some(CommandLine::Check)
    } else {
        None
    }
}

// Whether there is one word, and it is this one.
fn are_only(words: &[String], only: &str) -> bool
    ensures { IsTrue result ↔ (map string_bytes words.now ≡ only.now ∷ []) }
{
    match words {
        [word] => word.as_str() == only,
        _ => false,
    }
}
