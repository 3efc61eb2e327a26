//! Tips for mistakes that are often made, put into what clap says of a command line. Nothing here reads clap's
//! sentences: which tip helps is told by the word that is not known, and where it goes by the blank lines of the text.
//! The error of each function is that memory was refused.

use crate::help::{BUDGET_TIP, NO_WORDS, PAGE_TIP, RUN_TIP, VERSION_TIP, WALK_TIP};
use crate::lint_words::lint_command;
use crate::names::shown;
use crate::walk_words::walk_command;
use crate::words::{Made, Widths, trac_command, widths};
use clap::error::ErrorKind;
use clap::{Command, Error};
use std::alloc::{AllocError, Global};

/// The programs.
#[derive(Clone, Copy)]
pub(crate) enum Program {
    Trac,
    Walk,
    Lint,
}

/// What is said if a command line asks for nothing else.
#[derive(Drop)]
pub(crate) enum Said {
    /// Help, or the version.
    Help(String),
    /// Why it is not understood.
    Bad(String),
}

/// What is said of a command line that clap does not take, for this error.
pub(crate) fn said_of(
    alloc: Global,
    program: Program,
    words: &[&str],
    error: &Error,
) -> Result<Said, AllocError> {
    let kind = error.kind();
    if kind == ErrorKind::OutOfMemory {
        return Err(AllocError);
    }
    match kind {
        ErrorKind::DisplayHelp | ErrorKind::DisplayVersion => {
            Ok(Said::Help(error.to_string(alloc)?))
        }
        _ => Ok(Said::Bad(bad_line(alloc, program, words)?)),
    }
}

// What is said of a command line that is not understood: what clap says of its words as they are shown.
fn bad_line(alloc: Global, program: Program, words: &[&str]) -> Result<String, AllocError> {
    let mut names = Vec::new(alloc);
    for word in words {
        names.push(shown(alloc, word)?)?;
    }
    bad_names(alloc, program, names.as_slice())
}

fn bad_names(alloc: Global, program: Program, names: &[String]) -> Result<String, AllocError> {
    let words: Vec<&str> = names.iter().map(|name| name.as_str()).collect(alloc)?;
    let widths = widths();
    match command_of(alloc, program, &widths)?.try_get_matches_from(words.as_slice()) {
        Ok(_found) => String::from_str(alloc, NO_WORDS),
        Err(error) => why_bad(alloc, program, words.as_slice(), &error),
    }
}

// What is said of these words, for this error.
fn why_bad(
    alloc: Global,
    program: Program,
    words: &[&str],
    error: &Error,
) -> Result<String, AllocError> {
    let kind = error.kind();
    if kind == ErrorKind::OutOfMemory {
        return Err(AllocError);
    }
    let text = error.to_string(alloc)?;
    if !is_unknown(kind) {
        return Ok(text);
    }
    let word = unknown_in(alloc, program, words)?;
    with_tip(alloc, program, words, kind, word, text)
}

// The first word of a command line that its program does not know.
fn unknown_in<'w>(
    alloc: Global,
    program: Program,
    words: &[&'w str],
) -> Result<&'w str, AllocError> {
    let widths = widths();
    let place = unknown_place(command_of(alloc, program, &widths)?, words)?;
    Ok(word_at(words, place))
}

fn command_of<'a>(alloc: Global, program: Program, widths: Widths<'a>) -> Made<'a> {
    match program {
        Program::Trac => trac_command(alloc, widths),
        Program::Walk => walk_command(alloc, widths),
        Program::Lint => lint_command(alloc, widths),
    }
}

// Whether an error of this kind says that a word is neither an argument nor a subcommand.
fn is_unknown(kind: ErrorKind) -> bool {
    kind == ErrorKind::UnknownArgument || kind == ErrorKind::InvalidSubcommand
}

// The place of the first word of a command line that is neither an argument nor a subcommand. Clap gives no more than a
// text of it, so it is the last one of the fewest words in which clap finds one. None if there is none.
fn unknown_place<'a>(
    mut command: Command<'a>,
    words: &'a [&'a str],
) -> Result<Option<usize>, AllocError> {
    for place in 0..words.len() {
        match refusal_of(&mut command, words.split_at(place + 1).0) {
            Some(ErrorKind::OutOfMemory) => return Err(AllocError),
            Some(kind) if is_unknown(kind) => return Ok(Some(place)),
            _ => {}
        }
    }
    Ok(None)
}

// Why clap does not take these words; none if it does.
fn refusal_of<'a>(command: &mut Command<'a>, words: &'a [&'a str]) -> Option<ErrorKind> {
    match command.try_get_matches_from_mut(words) {
        Ok(_found) => None,
        Err(error) => Some(error.kind()),
    }
}

// The word at a place that may be none; empty if there is none.
fn word_at<'w>(words: &[&'w str], place: Option<usize>) -> &'w str {
    match place {
        Some(place) => words.get(place).copied().unwrap_or(""),
        None => "",
    }
}

// What is said of a command line in which this word is not known: this text of clap, with a tip if one helps.
fn with_tip(
    alloc: Global,
    program: Program,
    words: &[&str],
    kind: ErrorKind,
    word: &str,
    text: String,
) -> Result<String, AllocError> {
    match program {
        Program::Trac if kind == ErrorKind::InvalidSubcommand => {
            return with_subcommand_tip(alloc, word, &text);
        }
        Program::Trac => {}
        Program::Walk => return with_file_tip(alloc, word, text, "trac walk"),
        Program::Lint => return with_file_tip(alloc, word, text, "trac lint"),
    }
    match words.get(1).copied().unwrap_or("") {
        "run" if !is_option(word) => put_tip(alloc, &paragraphs_of(&text), Place::Last, RUN_TIP),
        "debug" => with_file_tip(alloc, word, text, "trac debug"),
        _ => Ok(text),
    }
}

// Whether a word was meant for an option.
fn is_option(word: &str) -> bool {
    word.starts_with('-') && word != "-"
}

// What is said of a word that stands where a subcommand should. Clap may name a subcommand that is similar: that comes
// first, unless the word names a file.
fn with_subcommand_tip(alloc: Global, word: &str, text: &str) -> Result<String, AllocError> {
    let names_file = word.contains('.') || word.contains('/');
    let place = if names_file {
        Place::First
    } else {
        Place::Last
    };
    put_tip(alloc, &paragraphs_of(text), place, tip_for(word))
}

// The tip for a word that stands where a subcommand should.
fn tip_for(word: &str) -> &'static str {
    match word {
        "walk" | "trac-walk" => WALK_TIP,
        "page" | "trac-page" => PAGE_TIP,
        "version" => VERSION_TIP,
        _ => RUN_TIP,
    }
}

// What is said of a command that reads a FILE and was given this word, which it does not know: this text of
// clap. A tip stands in the place of clap's own one to write a word after --: that has a letter of the word, or
// an option's name, as the FILE.
fn with_file_tip(
    alloc: Global,
    word: &str,
    text: String,
    command: &str,
) -> Result<String, AllocError> {
    let said = paragraphs_of(&text);
    if word == "--budget" || word.starts_with("--budget=") {
        return put_tip(alloc, &said, Place::Alone, BUDGET_TIP);
    }
    let is_after_dashes = said.tips.contains("'-- ");
    if !is_after_dashes {
        return Ok(text);
    }
    let tip = format!(in alloc;
        "a FILE whose name begins with - is written so: {command} ./{word}"
    )?;
    put_tip(alloc, &said, Place::Alone, &tip)
}

// The paragraphs of a text of clap. A blank line stands between two of them.
#[derive(Clone, Copy)]
struct Paragraphs<'t> {
    // What is wrong.
    wrong: &'t str,
    // Its tips, each in a line that is set in. Empty if it has none.
    tips: &'t str,
    // How the command is used.
    usage: &'t str,
}

fn paragraphs_of(text: &str) -> Paragraphs<'_> {
    let (wrong, rest) = text.split_once("\n\n").unwrap_or((text, ""));
    if !rest.starts_with(' ') {
        return Paragraphs {
            wrong,
            tips: "",
            usage: rest,
        };
    }
    let (tips, usage) = rest.split_once("\n\n").unwrap_or((rest, ""));
    Paragraphs { wrong, tips, usage }
}

// Where a tip goes.
#[derive(Clone, Copy)]
enum Place {
    // Before those of clap.
    First,
    // After those of clap.
    Last,
    // In the place of those of clap.
    Alone,
}

fn put_tip(
    alloc: Global,
    said: &Paragraphs<'_>,
    place: Place,
    tip: &str,
) -> Result<String, AllocError> {
    let Paragraphs { wrong, tips, usage } = *said;
    match place {
        Place::First if !tips.is_empty() => {
            format!(in alloc; "{wrong}\n\n  tip: {tip}\n{tips}\n\n{usage}")
        }
        Place::Last if !tips.is_empty() => {
            format!(in alloc; "{wrong}\n\n{tips}\n  tip: {tip}\n\n{usage}")
        }
        _ => format!(in alloc; "{wrong}\n\n  tip: {tip}\n\n{usage}"),
    }
}
