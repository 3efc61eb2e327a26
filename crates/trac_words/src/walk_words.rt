//! The command line of `trac walk`.
ghost use Rattle.std.specs.Prelude.{IfOk};
ghost use Rattle.trac_words.specs.Words.{IsWalkLine};

use crate::help::{VERSION, WALK_USAGE, WALK_USE};
use crate::memory_words::memory_in;
use crate::tips::{Program, Said, said_of};
use crate::words::{
    BACK, Made, Widths, described, file, number_in, number_option, options_in, path_in, widths,
    with_options,
};
use clap::{Arg, ArgAction, ArgMatches, Command};
use std::alloc::{AllocError, Global};
use trac_streams::{DEFAULT_BUDGET, Options};

/// How many MiB the records may take of the steps that can be gone back over, if nothing else is said.
pub const DEFAULT_KEEP: u64 = 256;

/// The most that they may be allowed: one TiB.
pub const KEEP_LIMIT: u64 = 1_048_576;

/// What a command line of `trac walk` asks for.
#[derive(Drop)]
pub enum WalkLine {
    /// To walk through the program in the file at this path. The budget is the default one, and not used.
    Walk {
        path: String,
        options: Options,
        /// How many MiB the records may take of the steps that can be gone back over.
        keep: u64,
        /// Whether a prompt is written.
        prompt: bool,
        /// How many bytes of memory the walk may take, if the line says it.
        memory: Option<u64>,
    },
    /// To be shown this text: help, or the version.
    Help(String),
    /// Nothing that is understood: this text says why.
    Bad(String),
}

/// Reads a command line of `trac walk`, the program's name first. The options are within their ranges. The
/// error is that memory was refused.
pub fn read_walk_line(alloc: Global, words: &[&str]) -> Result<WalkLine, AllocError>
    ensures { IfOk result IsWalkLine }
{
    let widths = widths();
    match walk_command(alloc, &widths)?.try_get_matches_from(words) {
        Ok(matches) => walk_line(alloc, &matches),
        Err(error) => match said_of(alloc, Program::Walk, words, &error)? {
            Said::Help(text) => Ok(WalkLine::Help(text)),
            Said::Bad(text) => Ok(WalkLine::Bad(text)),
        },
    }
}

fn walk_line(alloc: Global, found: &ArgMatches<'_>) -> Result<WalkLine, AllocError>
    ensures { IfOk result IsWalkLine }
{
    match memory_in(alloc, found)? {
        Ok(memory) => Ok(WalkLine::Walk {
            path: path_in(alloc, found)?,
            options: options_in(found, DEFAULT_BUDGET),
            keep: number_in(found, "keep", DEFAULT_KEEP, KEEP_LIMIT),
            prompt: found.get_flag("prompt"),
            memory,
        }),
        Err(text) => Ok(WalkLine::Bad(text)),
    }
}

/// The command, which takes these widths of numbers.
pub(crate) fn walk_command<'a>(alloc: Global, widths: Widths<'a>) -> Made<'a> {
    with_options(alloc, bare_command(alloc).arg(file(alloc))?, BACK, widths)?
        .arg(keep(alloc))?
        .arg(prompt(alloc))
}

// The command without its arguments.
fn bare_command<'a>(alloc: Global) -> Command<'a> {
    described(
        Command::new(alloc, "trac"),
        "Walks through the TRAC T-64 program in FILE, forwards and backwards, for a person at a terminal",
        WALK_USE,
    )
    .version(VERSION)
    .override_usage(WALK_USAGE)
}

// The option that says how much memory the way back may take.
fn keep<'a>(alloc: Global) -> Arg<'a> {
    let help = "About how many MiB of memory these steps may take: 1 to 1048576 [default: 256]";
    number_option(alloc, "keep", "SIZE", help, KEEP_LIMIT as i64)
}

// The flag that asks for a prompt.
fn prompt<'a>(alloc: Global) -> Arg<'a> {
    Arg::new(alloc, "prompt")
        .long("prompt")
        .action(ArgAction::SetTrue)
        .help("Prompt also where standard input is no terminal")
}
