//! The command line.
ghost use Rattle.std.specs.Prelude.{◌≤◌, IfOk};
ghost use Rattle.trac_words.specs.Words.{AreWithin, IsLine};

use crate::help::{DEBUG_USE, NO_SUBCOMMAND, RUN_USAGE, RUN_USE, USE, VERSION};
use crate::memory_words::{memory, memory_in};
use crate::tips::{Program, Said, said_of};
use clap::builder::PossibleValue;
use clap::{Arg, ArgMatches, Command, value_parser};
use std::alloc::{AllocError, Global};
use trac_rules::limit::JOURNAL_LIMIT;
use trac_rules::width::Width;
use trac_streams::{BUDGET_LIMIT, DEFAULT_BUDGET, Options, decimals_of, is_in_range};

/// How many records a run's journal may hold if nothing else is said.
pub const DEFAULT_JOURNAL: usize = 65_536;

/// What a command line asks for.
#[derive(Drop)]
pub enum Line {
    /// To run the standard input, within so many bytes of memory, if it says how many.
    Run(Options, Option<u64>),
    /// To debug the program in this file, within so many bytes too. The budget is the default one, and not used.
    Debug(String, Options, Option<u64>),
    /// To be shown this text: help, or the version.
    Help(String),
    /// Nothing that is understood: this text says why.
    Bad(String),
}

/// Reads a command line, the program's name first. The options are within their ranges. A line without a subcommand is
/// not understood. The allocator is `Global` because that of `clap` is. The error is that memory was refused.
pub fn read_line(alloc: Global, words: &[&str]) -> Result<Line, AllocError>
    ensures { IfOk result IsLine }
{
    let widths = widths();
    match trac_command(alloc, &widths)?.try_get_matches_from(words) {
        Ok(matches) => line_of(alloc, &matches),
        Err(error) => match said_of(alloc, Program::Trac, words, &error)? {
            Said::Help(text) => Ok(Line::Help(text)),
            Said::Bad(text) => Ok(Line::Bad(text)),
        },
    }
}

// What a command line that `clap` has taken asks for. It takes none without a subcommand; one would not be understood.
fn line_of(alloc: Global, matches: &ArgMatches<'_>) -> Result<Line, AllocError>
    ensures { IfOk result IsLine }
{
    match matches.subcommand() {
        Some(("run", found)) => run_line(alloc, found),
        Some(("debug", found)) => debug_line(alloc, found),
        _ => Ok(Line::Bad(String::from_str(alloc, NO_SUBCOMMAND)?)),
    }
}

fn run_line(alloc: Global, found: &ArgMatches<'_>) -> Result<Line, AllocError>
    ensures { IfOk result IsLine }
{
    let budget = number_in(found, "budget", DEFAULT_BUDGET, BUDGET_LIMIT);
    let options = options_in(found, budget);
    match memory_in(alloc, found)? {
        Ok(memory) => Ok(Line::Run(options, memory)),
        Err(text) => Ok(Line::Bad(text)),
    }
}

fn debug_line(alloc: Global, found: &ArgMatches<'_>) -> Result<Line, AllocError>
    ensures { IfOk result IsLine }
{
    let options = options_in(found, DEFAULT_BUDGET);
    match memory_in(alloc, found)? {
        Ok(memory) => Ok(Line::Debug(path_in(alloc, found)?, options, memory)),
        Err(text) => Ok(Line::Bad(text)),
    }
}

/// The values of `--decimals`.
pub(crate) type Widths<'a> = &'a [PossibleValue<'a>];

/// A command; the error is that memory was refused.
pub(crate) type Made<'a> = Result<Command<'a>, AllocError>;

/// The options that a command line gives, with this budget: 1 to 1,000,000,000,000 steps.
pub(crate) fn options_in(found: &ArgMatches<'_>, budget: u64) -> Options
    requires some { 1 ≤ budget }
    requires most { budget ≤ BUDGET_LIMIT }
    ensures { AreWithin result }
{
    let journal = number_in(
        found,
        "journal",
        DEFAULT_JOURNAL as u64,
        JOURNAL_LIMIT as u64,
    );
    Options {
        budget,
        journal: journal as usize,
        decimals: width_in(found),
    }
}

/// How wide numbers are to be.
pub(crate) fn width_in(found: &ArgMatches<'_>) -> Width {
    decimals_of(found.get_one("decimals")).unwrap_or(Width::W128)
}

/// The path of the file that is named. The error is that memory was refused.
pub(crate) fn path_in(alloc: Global, found: &ArgMatches<'_>) -> Result<String, AllocError> {
    String::from_str(alloc, found.get_str("FILE").unwrap_or(""))
}

/// The number that this option has, or the default one. `clap` takes no other than one from 1 to the most.
pub(crate) fn number_in(found: &ArgMatches<'_>, option: &str, default: u64, most: u64) -> u64
    requires some { 1 ≤ default }
    requires within { default ≤ most }
    ensures some { 1 ≤ result }
    ensures most { result ≤ most }
{
    match found.get_one(option) {
        Some(number) if is_in_range(number, most) => number,
        _ => default,
    }
}

/// The program's commands. Each is made by small functions: what a call of a command's own costs to prove grows
/// with the ends that still own one.
pub(crate) fn trac_command<'a>(alloc: Global, widths: Widths<'a>) -> Made<'a> {
    let debug = debug_command(alloc, widths)?;
    match command_to_run(alloc, widths) {
        Ok(command) => command.subcommand(debug),
        Err(error) => {
            let_go(debug);
            Err(error)
        }
    }
}

fn let_go(command: Command<'_>) {
    let _last = command;
}

fn command_to_run<'a>(alloc: Global, widths: Widths<'a>) -> Made<'a> {
    let run = run_command(alloc, widths)?;
    whole_command(alloc).subcommand(run)
}

fn whole_command<'a>(alloc: Global) -> Command<'a> {
    Command::new(alloc, "trac")
        .about("A processor for TRAC T-64")
        .version(VERSION)
        .propagate_version(true)
        .after_help(USE)
        .subcommand_required(true)
}

fn run_command<'a>(alloc: Global, widths: Widths<'a>) -> Made<'a> {
    let command = described(
        subcommand_of_trac(alloc, "run")?,
        "Runs the program on standard input",
        RUN_USE,
    );
    with_options(
        alloc,
        command.override_usage(RUN_USAGE).arg(budget(alloc))?,
        "Output is written after N steps at the latest, or 8192 if N is more: 1 to 1048576",
        widths,
    )
}

fn debug_command<'a>(alloc: Global, widths: Widths<'a>) -> Made<'a> {
    let command = described(
        subcommand_of_trac(alloc, "debug")?,
        "Steps through the program in FILE, forwards and backwards",
        DEBUG_USE,
    );
    with_options(alloc, command.arg(file(alloc))?, BACK, widths)
}

// A subcommand of this name, shown as the program's.
fn subcommand_of_trac<'a>(alloc: Global, name: &'a str) -> Made<'a> {
    Command::new(alloc, name).display_name("trac")
}

/// The command with what its help says first and last.
pub(crate) fn described<'a>(command: Command<'a>, about: &'a str, last: &'a str) -> Command<'a> {
    command.about(about).after_help(last)
}

/// The command with the options that each command has, of which `--journal` means this, and
/// `--decimals` takes these values.
pub(crate) fn with_options<'a>(
    alloc: Global,
    command: Command<'a>,
    records: &'a str,
    widths: Widths<'a>,
) -> Made<'a> {
    command
        .arg(journal(alloc, records))?
        .arg(decimals(alloc, widths))?
        .arg(memory(alloc))
}

/// What `--journal` means if steps are gone back over.
pub(crate) const BACK: &str = "How many steps can be gone back over: 1 to 1048576";

pub(crate) fn file<'a>(alloc: Global) -> Arg<'a> {
    Arg::new(alloc, "FILE")
        .required(true)
        .help("The file that holds the program")
}

// The option that says how many steps a run may take.
fn budget<'a>(alloc: Global) -> Arg<'a> {
    let help = "How many steps the run may take: 1 to 1000000000000";
    number_option(alloc, "budget", "N", help, BUDGET_LIMIT as i64).default_value("1000000000")
}

// The option that says how many records a journal may hold, with what that means for this command.
fn journal<'a>(alloc: Global, help: &'a str) -> Arg<'a> {
    number_option(alloc, "journal", "N", help, JOURNAL_LIMIT as i64).default_value("65536")
}

/// An option that takes a number, 1 to this.
pub(crate) fn number_option<'a>(
    alloc: Global,
    name: &'a str,
    value: &'a str,
    help: &'a str,
    most: i64,
) -> Arg<'a> {
    Arg::new(alloc, name)
        .long(name)
        .value_name(value)
        .help(help)
        .value_parser(value_parser!(u64).range(1..=most))
}

/// The option that says how wide numbers are.
pub(crate) fn decimals<'a>(alloc: Global, widths: Widths<'a>) -> Arg<'a> {
    Arg::new(alloc, "decimals")
        .long("decimals")
        .value_name("BITS")
        .help("How wide numbers are, in bits")
        .default_value("128")
        .value_parser(widths)
}

/// The values of `--decimals`. As in the numbers of the other options, a sign may stand in front.
pub(crate) fn widths<'a>() -> [PossibleValue<'a>; 2] {
    [
        PossibleValue::new("64").aliases(&["+64"]),
        PossibleValue::new("128").aliases(&["+128"]),
    ]
}
