//! The command line of `trac lint`.
ghost use Rattle.std.specs.Prelude.{IfOk};
ghost use Rattle.trac_words.specs.Words.{IsLintLine, IsMemory};

use crate::help::{LINT_USAGE, LINT_USE, VERSION};
use crate::memory_words::{memory, memory_in};
use crate::tips::{Program, Said, said_of};
use crate::walk_words::{DEFAULT_KEEP, KEEP_LIMIT};
use crate::words::{Made, Widths, decimals, described, number_in, number_option, width_in, widths};
use clap::{Arg, ArgAction, ArgMatches, Command};
use std::alloc::{AllocError, Global};
use trac_rules::width::Width;
use trac_streams::BUDGET_LIMIT;

/// How many steps a program may take if nothing else is said.
pub const DEFAULT_STEPS: u64 = 10_000_000;

/// What a command line of `trac lint` asks for.
#[derive(Drop)]
pub enum LintLine {
    /// To look for doubts in the programs in the files at these paths.
    Lint {
        paths: Vec<String>,
        /// The file that each program reads after its own, if one is named.
        input: Option<String>,
        /// How many steps a program may take.
        steps: u64,
        /// How many MiB the records may take of the steps that can be gone back over.
        keep: u64,
        /// How wide a program's numbers are.
        decimals: Width,
        /// How many bytes of memory it may take, if the line says it.
        memory: Option<u64>,
    },
    /// To be shown this text: help, or the version.
    Help(String),
    /// Nothing that is understood: this text says why.
    Bad(String),
}

fn lint_line(alloc: Global, found: &ArgMatches<'_>) -> Result<LintLine, AllocError>
    ensures { IfOk result IsLintLine }
{
    match memory_in(alloc, found)? {
        Ok(memory) => programs_in(alloc, found, memory),
        Err(text) => Ok(LintLine::Bad(text)),
    }
}

// To look for doubts in the programs that are named, within so much memory.
fn programs_in(
    alloc: Global,
    found: &ArgMatches<'_>,
    memory: Option<u64>,
) -> Result<LintLine, AllocError>
    requires { IsMemory memory }
    ensures { IfOk result IsLintLine }
{
    let paths = paths_in(alloc, found)?;
    let input = input_in(alloc, found)?;
    Ok(LintLine::Lint {
        paths,
        input,
        steps: number_in(found, "steps", DEFAULT_STEPS, BUDGET_LIMIT),
        keep: number_in(found, "keep", DEFAULT_KEEP, KEEP_LIMIT),
        decimals: width_in(found),
        memory,
    })
}

/// Reads a command line of `trac lint`, the program's name first. The numbers are within their ranges. The error is
/// that memory was refused.
pub fn read_lint_line(alloc: Global, words: &[&str]) -> Result<LintLine, AllocError>
    ensures { IfOk result IsLintLine }
{
    let widths = widths();
    match lint_command(alloc, &widths)?.try_get_matches_from(words) {
        Err(error) => match said_of(alloc, Program::Lint, words, &error)? {
            Said::Help(text) => Ok(LintLine::Help(text)),
            Said::Bad(text) => Ok(LintLine::Bad(text)),
        },
        Ok(matches) => lint_line(alloc, &matches),
    }
}

// The paths of the files that are named.
fn paths_in(alloc: Global, found: &ArgMatches<'_>) -> Result<Vec<String>, AllocError> {
    let mut paths = Vec::new(alloc);
    let Some(names) = found.get_strs("FILE") else {
        return Ok(paths);
    };
    for name in names {
        paths.push(String::from_str(alloc, *name)?)?;
    }
    Ok(paths)
}

// The path of the file with input, if one is named.
fn input_in(alloc: Global, found: &ArgMatches<'_>) -> Result<Option<String>, AllocError> {
    match found.get_str("input") {
        Some(name) => Ok(Some(String::from_str(alloc, name)?)),
        None => Ok(None),
    }
}

/// The command, which takes these widths of numbers.
pub(crate) fn lint_command<'a>(alloc: Global, widths: Widths<'a>) -> Made<'a> {
    bare_command(alloc)
        .arg(files(alloc))?
        .arg(input(alloc))?
        .arg(steps(alloc))?
        .arg(keep(alloc))?
        .arg(decimals(alloc, widths))?
        .arg(memory(alloc))
}

// The command without its arguments.
fn bare_command<'a>(alloc: Global) -> Command<'a> {
    described(
        Command::new(alloc, "trac"),
        "Runs the TRAC T-64 program in each FILE, and says where it does what is seldom meant",
        LINT_USE,
    )
    .version(VERSION)
    .override_usage(LINT_USAGE)
}

// The files that hold programs.
fn files<'a>(alloc: Global) -> Arg<'a> {
    Arg::new(alloc, "FILE")
        .required(true)
        .num_args(1..)
        .action(ArgAction::Append)
        .help("The files that hold a program each")
}

// The option that names what a program reads.
fn input<'a>(alloc: Global) -> Arg<'a> {
    Arg::new(alloc, "input")
        .long("input")
        .value_name("TEXTFILE")
        .help("What each program reads after its FILE")
}

// The option that says how many steps a program may take.
fn steps<'a>(alloc: Global) -> Arg<'a> {
    let help = "How many steps a program may take: 1 to 1000000000000";
    number_option(alloc, "steps", "N", help, BUDGET_LIMIT as i64).default_value("10000000")
}

// The option that says how much memory the way back may take.
fn keep<'a>(alloc: Global) -> Arg<'a> {
    let help = "About how many MiB of memory the way back may take: 1 to 1048576 [default: 256]";
    number_option(alloc, "keep", "SIZE", help, KEEP_LIMIT as i64)
}
