//! The program of `trac walk`: a debugger of TRAC T-64 for a person at a terminal. With the first word --lint it is
//! that of `trac lint`, which looks for doubts, with --lsp that of `trac lsp`, a language server, with --dap that of
//! `trac dap`, a debug adapter.
#![tactic(auto)]

mod debugging;
mod files;
mod linting;
mod naming;
mod serving;

ghost use Rattle.std.specs.Prelude.{◌≤◌};

use debugging::debug_by;
use files::Files;
use linting::lint_by;
use serving::serve_by;
use std::alloc::{AllocError, Global};
use std::env::Args;
use std::process::ExitCode;
use std::{env, io};
use trac_memory::{Limited, limit_in, tape_in};
use trac_rules::limit::JOURNAL_LIMIT;
use trac_streams::{Ending, say};
use trac_walk::{Settings, walk_among};
use trac_words::help::NOT_TEXT;
use trac_words::names;
use trac_words::walk_words::{WalkLine, read_walk_line};

/// A MiB, in bytes.
pub(crate) const MIB: u64 = 1 << 20;

/// The status of a command line that is not understood.
const NOT_UNDERSTOOD: u8 = 2;

/// The first word that asks for doubts. The launcher `trac` writes it for `trac lint`.
const LINT: &str = "--lint";

/// The first word that asks for a language server, likewise.
const LSP: &str = "--lsp";

/// The first word that asks for a debug adapter, likewise.
const DAP: &str = "--dap";

fn main(rt: HostRuntime) -> ExitCode {
    match env::args(&rt) {
        Ok(words) => obey(&rt, words),
        Err(error) if error.kind() == io::ErrorKind::OutOfMemory => say(&rt, Ending::Memory),
        Err(_) => not_understood(&rt, NOT_TEXT),
    }
}

// Does what a command line asks for.
fn obey(rt: &HostRuntime, words: Args<Global>) -> ExitCode {
    match obey_words(rt, words) {
        Ok(status) => status,
        Err(AllocError) => say(rt, Ending::Memory),
    }
}

// The same. The error is that memory was refused for the words, here and below.
fn obey_words(rt: &HostRuntime, words: Args<Global>) -> Result<ExitCode, AllocError> {
    let words: Vec<String> = words.collect(rt.alloc())?;
    obey_texts(rt, words.as_slice())
}

fn obey_texts(rt: &HostRuntime, words: &[String]) -> Result<ExitCode, AllocError> {
    let texts: Vec<&str> = words.iter().map(|word| word.as_str()).collect(rt.alloc())?;
    match texts.as_slice() {
        [_, first, ..] if *first == LINT => Ok(lint_by(rt, texts.as_slice().split_at(1).1)),
        [_, first, ..] if *first == LSP => Ok(serve_by(rt, texts.split_at(2).1)),
        [_, first, ..] if *first == DAP => Ok(debug_by(rt, texts.split_at(2).1)),
        texts => walk_by(rt, texts),
    }
}

// Walks as the words of a command line ask for.
fn walk_by(rt: &HostRuntime, words: &[&str]) -> Result<ExitCode, AllocError> {
    Ok(match read_walk_line(rt.alloc(), words)? {
        WalkLine::Walk {
            path,
            options,
            keep,
            prompt,
            memory,
        } => {
            let settings = Settings {
                journal: options.journal,
                keep: keep * MIB,
                decimals: options.decimals,
                prompt,
            };
            say(rt, walk_file(rt, path.as_str(), settings, memory))
        }
        WalkLine::Help(text) => shown(rt, text.as_str()),
        WalkLine::Bad(text) => not_understood(rt, text.as_str()),
    })
}

/// Shows help, or the version.
pub(crate) fn shown(rt: &HostRuntime, text: &str) -> ExitCode {
    match print!(rt; "{text}") {
        Ok(()) => ExitCode::SUCCESS,
        Err(_) => say(rt, Ending::Write),
    }
}

// Says why a command line is not understood.
pub(crate) fn not_understood(rt: &HostRuntime, text: &str) -> ExitCode {
    let _ = eprint!(rt; "{text}");
    ExitCode::from(NOT_UNDERSTOOD)
}

// Walks through the program in the file at this path, within so many bytes of memory, or the default number.
fn walk_file(rt: &HostRuntime, path: &str, settings: Settings, memory: Option<u64>) -> Ending
    requires some_records { 1 ≤ settings.journal }
    requires most_records { settings.journal ≤ JOURNAL_LIMIT }
{
    let memory = Limited::new(rt.alloc(), limit_in(rt, memory));
    match tape_in(rt, &memory, path) {
        Ok(tape) => walk_among(
            &memory,
            &Files::new(rt, path),
            tape.as_slice(),
            &mut rt.stdin(),
            &mut rt.stdout(),
            settings,
        ),
        Err(Ending::Read) => unread(rt, path),
        Err(ending) => ending,
    }
}

// Says that the file at this path cannot be read.
fn unread(rt: &HostRuntime, path: &str) -> Ending {
    let Ok(name) = names::named(rt.alloc(), path) else {
        return Ending::Memory;
    };
    let _ = eprint!(rt; "trac walk: {name} cannot be read\n");
    Ending::Read
}
