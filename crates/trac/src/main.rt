//! The program `trac`: a processor for the language TRAC T-64.
#![tactic(auto)]

ghost use Rattle.std.specs.Prelude.{◌≤◌, IfOk};
ghost use Rattle.trac_words.specs.Words.{IsLine};

use std::alloc::{AllocError, Global};
use std::env::Args;
use std::io::IsTerminal;
use std::process::ExitCode;
use std::rt::Env;
use std::{env, io};
use trac_debug::debug;
use trac_memory::{Limited, limit_in, tape_in};
use trac_rules::limit::JOURNAL_LIMIT;
use trac_run::run;
use trac_streams::{BUDGET_LIMIT, Ending, Options, say};
use trac_words::help::NOT_TEXT;
use trac_words::words::{Line, read_line};

/// The status of a command line that is not understood.
const NOT_UNDERSTOOD: u8 = 2;

// What is said before a run whose input comes from a terminal, where nothing else would show that it waits.
const AT_TERMINAL: &str =
    "trac: reading from the terminal: ' and Enter end a text, Ctrl-D ends the input";

fn main(rt: HostRuntime) -> ExitCode {
    match asked_line(&rt) {
        Ok(Line::Run(options, memory)) => {
            let ending = run_input(&rt, options, memory);
            say(&rt, ending)
        }
        Ok(Line::Debug(path, options, memory)) => {
            let ending = debug_file(&rt, path.as_str(), options, memory);
            say(&rt, ending)
        }
        Ok(Line::Help(text)) => match print!(rt; "{text}") {
            Ok(()) => ExitCode::SUCCESS,
            Err(_) => say(&rt, Ending::Write),
        },
        Ok(Line::Bad(text)) => {
            let _ = eprint!(rt; "{text}");
            ExitCode::from(NOT_UNDERSTOOD)
        }
        Err(AllocError) => say(&rt, Ending::Memory),
    }
}

// What the words of the command line ask for. The error is that memory was refused.
fn asked_line(rt: &(impl Env + AllocGlobal)) -> Result<Line, AllocError>
    ensures { IfOk result IsLine }
{
    match env::args(rt) {
        Ok(words) => line_in(rt.alloc(), words),
        Err(error) if error.kind() == io::ErrorKind::OutOfMemory => Err(AllocError),
        Err(_) => {
            let text = String::from_str(rt.alloc(), NOT_TEXT)?;
            Ok(Line::Bad(text))
        }
    }
}

fn line_in(alloc: Global, words: Args<Global>) -> Result<Line, AllocError>
    ensures { IfOk result IsLine }
{
    let words: Vec<String> = words.collect(alloc)?;
    line_of(alloc, words.as_slice())
}

fn line_of(alloc: Global, words: &[String]) -> Result<Line, AllocError>
    ensures { IfOk result IsLine }
{
    let texts: Vec<&str> = words.iter().map(|word| word.as_str()).collect(alloc)?;
    read_line(alloc, texts.as_slice())
}

// Runs the program on standard input, within so many bytes of memory, or the default number.
fn run_input(rt: &HostRuntime, options: Options, memory: Option<u64>) -> Ending
    requires some_steps { 1 ≤ options.budget }
    requires most_steps { options.budget ≤ BUDGET_LIMIT }
    requires some_records { 1 ≤ options.journal }
    requires most_records { options.journal ≤ JOURNAL_LIMIT }
{
    if rt.stdin().is_terminal() {
        let _ = eprintln!(rt; "{AT_TERMINAL}");
    }
    let memory = Limited::new(rt.alloc(), limit_in(rt, memory));
    run(&memory, &mut rt.stdin(), &mut rt.stdout(), options)
}

// Debugs the program in the file at this path, within so many bytes too.
fn debug_file(rt: &HostRuntime, path: &str, options: Options, memory: Option<u64>) -> Ending
    requires some_records { 1 ≤ options.journal }
    requires most_records { options.journal ≤ JOURNAL_LIMIT }
{
    let memory = Limited::new(rt.alloc(), limit_in(rt, memory));
    match tape_in(rt, &memory, path) {
        Ok(tape) => debug(
            &memory,
            tape.as_slice(),
            &mut rt.stdin(),
            &mut rt.stdout(),
            options,
        ),
        Err(ending) => ending,
    }
}
