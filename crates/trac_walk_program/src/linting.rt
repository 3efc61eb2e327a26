//! The command line of `trac lint`, carried out.

use crate::naming::legible;
use crate::{MIB, not_understood};
use std::alloc::{AllocError, Global};
use std::process::ExitCode;
use trac_lint::{Found, Halt, Settings, Sources, lint};
use trac_memory::{Limited, limit_in, tape_in};
use trac_streams::Ending;
use trac_words::lint_words::{LintLine, read_lint_line};
use trac_words::names::named;

// What is said if memory was refused.
const NO_MEMORY: &str = "there is no memory";

// What is said if the writer failed.
const NO_OUTPUT: &str = "the output cannot be written";

// The status if a file is not looked through.
const FAILED: u8 = 2;

/// Looks for doubts as the words of a command line ask for.
pub(crate) fn lint_by(rt: &HostRuntime, words: &[&str]) -> ExitCode {
    match read_lint_line(rt.alloc(), words) {
        Ok(
            LintLine::Lint {
                paths,
                input,
                steps,
                keep,
                decimals,
                memory,
            },
        ) => {
            let settings = Settings {
                steps,
                keep: keep * MIB,
                decimals,
            };
            let input = match &input {
                Some(path) => Some(path.as_str()),
                None => None,
            };
            let memory = Limited::new(rt.alloc(), limit_in(rt, memory));
            ExitCode::from(lint_all(rt, &memory, paths.as_slice(), input, settings))
        }
        Ok(LintLine::Help(text)) => match print!(rt; "{text}") {
            Ok(()) => ExitCode::SUCCESS,
            Err(_) => failed(rt, NO_OUTPUT),
        },
        Ok(LintLine::Bad(text)) => not_understood(rt, text.as_str()),
        Err(AllocError) => failed(rt, NO_MEMORY),
    }
}

// Looks through the programs in the files at these paths, each with the text in the file at that one after it, if there
// is one. Returns the highest of their statuses. If the output cannot be written, the others are not looked through.
fn lint_all(
    rt: &HostRuntime,
    memory: &Limited<Global>,
    paths: &[String],
    input: Option<&str>,
    settings: Settings,
) -> u8 {
    let mut status = 0;
    for path in paths {
        match lint_file(rt, memory, path.as_str(), input, settings) {
            Some(other) => status = status.max(other),
            None => return FAILED,
        }
    }
    status
}

// The status of one; none if the output cannot be written.
fn lint_file(
    rt: &HostRuntime,
    memory: &Limited<Global>,
    path: &str,
    input: Option<&str>,
    settings: Settings,
) -> Option<u8> {
    let (Ok(name), Ok(input_name)) = (
        legible(rt.alloc(), path),
        legible(rt.alloc(), input.unwrap_or("")),
    ) else {
        return Some(told(rt, path, NO_MEMORY));
    };
    let Some(mut tape) = file_at(rt, memory, path) else {
        return Some(FAILED);
    };
    let len = tape.len();
    if let Some(input) = input {
        let Some(more) = file_at(rt, memory, input) else {
            return Some(FAILED);
        };
        if tape.extend_from_slice(more.as_slice()).is_err() {
            return Some(told(rt, path, NO_MEMORY));
        }
    }
    let sources = Sources {
        name: name.as_bytes(),
        input_name: input_name.as_bytes(),
        tape: tape.as_slice(),
        len,
    };
    let found = lint(memory, sources, &mut rt.stdout(), settings);
    tell_halt(rt, path, found, settings.steps);
    (found.halt != Halt::Write).then_some(found.status())
}

// The bytes of the file at this path; none, which is said, if they cannot be had.
fn file_at<'a>(
    rt: &HostRuntime,
    memory: &'a Limited<Global>,
    path: &str,
) -> Option<Vec<u8, &'a Limited<Global>>> {
    let why = match tape_in(rt, memory, path) {
        Ok(tape) => return Some(tape),
        Err(Ending::Limit) => "it has more than 33554432 bytes",
        Err(Ending::Memory) => NO_MEMORY,
        Err(_) => "it cannot be read",
    };
    told(rt, path, why);
    None
}

// Says of the file at this path why it is not looked through.
fn told(rt: &HostRuntime, path: &str, why: &str) -> u8 {
    match named(rt.alloc(), path) {
        Ok(name) => {
            let _ = eprint!(rt; "trac lint: {name}: {why}\n");
        }
        Err(AllocError) => {
            let _ = eprint!(rt; "trac lint: {NO_MEMORY}\n");
        }
    }
    FAILED
}

// Says why nothing is looked through.
fn failed(rt: &HostRuntime, why: &str) -> ExitCode {
    let _ = eprint!(rt; "trac lint: {why}\n");
    ExitCode::from(FAILED)
}

// Says why the program at this path was not run to its end, if it was not.
fn tell_halt(rt: &HostRuntime, path: &str, found: Found, steps: u64) {
    let Ok(name) = named(rt.alloc(), path) else {
        told(rt, path, NO_MEMORY);
        return;
    };
    let why = match found.halt {
        Halt::Ended => return,
        Halt::Spent => {
            let unit = unit_of(steps);
            let _ = eprint!(rt;
                "trac lint: {name}: stopped after {steps} {unit}; --steps allows more\n"
            );
            return;
        }
        Halt::Limit(steps) => {
            let unit = unit_of(steps);
            let _ = eprint!(rt;
                "trac lint: {name}: stopped after {steps} {unit}, where a limit is passed: \
                too much text, or too many arguments, forms or blocks\n"
            );
            return;
        }
        Halt::TooLong => "with its input it has more than 33554432 bytes",
        Halt::Memory => "stopped, there is no memory to go on",
        Halt::Write => NO_OUTPUT,
    };
    told(rt, path, why);
}

// What stands after a number of steps.
fn unit_of(steps: u64) -> &'static str {
    match steps {
        1 => "step",
        _ => "steps",
    }
}
