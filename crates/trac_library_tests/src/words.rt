//! The command line: the options that its words ask for, lines that ask for help, and lines that are not understood.
//! What these are shown is tested in `tests/test_endings.py`.
use std::alloc::Global;
use std::process::Abort;
use trac_rules::width::Width;
use trac_run::Options;
use trac_words::words::{Line, read_line};

fn line_of(rt: &impl Abort, alloc: Global, words: &[&str]) -> Line {
    read_line(alloc, words).expect(rt, "there was no memory")
}

// Whether a line asks for a run, or for the debugger over the file of this path, with these options, and says nothing
// of memory.
fn asks_for(line: &Line, file: Option<&str>, options: Options) -> bool {
    match line {
        Line::Run(met, memory) => file.is_none() && *met == options && memory.is_none(),
        Line::Debug(path, met, memory) => {
            file == Some(path.as_str()) && *met == options && memory.is_none()
        }
        _ => false,
    }
}

fn expect_options(
    rt: &impl Abort,
    alloc: Global,
    words: &[&str],
    file: Option<&str>,
    options: Options,
) {
    let is_met = asks_for(&line_of(rt, alloc, words), file, options);
    assert!(rt; is_met, "the options are those of {file:?}");
}

// Words, the file that they name, and the options that they ask for.
const LINES: &[(&[&str], Option<&str>, Options)] = &[
    (
        &["trac", "run"],
        None,
        Options {
            budget: 1_000_000_000,
            journal: 65_536,
            decimals: Width::W128,
        },
    ),
    (
        &["trac", "run", "--budget", "19", "--journal", "7"],
        None,
        Options {
            budget: 19,
            journal: 7,
            decimals: Width::W128,
        },
    ),
    (
        &["trac", "run", "--journal=1048576", "--budget=1000000000000"],
        None,
        Options {
            budget: 1_000_000_000_000,
            journal: 1_048_576,
            decimals: Width::W128,
        },
    ),
    (
        &["trac", "debug", "F", "--journal", "9"],
        Some("F"),
        Options {
            budget: 1_000_000_000,
            journal: 9,
            decimals: Width::W128,
        },
    ),
    (
        &["trac", "run", "--decimals", "64"],
        None,
        Options {
            budget: 1_000_000_000,
            journal: 65_536,
            decimals: Width::W64,
        },
    ),
    (
        &["trac", "run", "--decimals=128"],
        None,
        Options {
            budget: 1_000_000_000,
            journal: 65_536,
            decimals: Width::W128,
        },
    ),
    (
        &["trac", "debug", "F", "--decimals", "64", "--journal", "9"],
        Some("F"),
        Options {
            budget: 1_000_000_000,
            journal: 9,
            decimals: Width::W64,
        },
    ),
];

#[test]
fn options_asked_for(rt: HostRuntime) {
    for (words, file, options) in LINES.iter() {
        expect_options(&rt, rt.alloc(), words, *file, *options);
    }
}

// How much memory a line allows a run, if it says so.
fn memory_of(line: &Line) -> Option<u64> {
    match line {
        Line::Run(_, memory) | Line::Debug(_, _, memory) => *memory,
        _ => None,
    }
}

// Sizes of memory, and how many bytes they are.
const SIZES: &[(&str, u64)] = &[
    ("1048576", 1_048_576),
    ("1024K", 1_048_576),
    ("64M", 67_108_864),
    ("3g", 3_221_225_472),
    ("1024G", 1_099_511_627_776),
];

fn expect_memory(rt: &impl Abort, alloc: Global, size: &str, bytes: u64) {
    let met = memory_of(&line_of(rt, alloc, &["trac", "run", "--memory", size]));
    assert!(rt; met == Some(bytes), "{size} is {bytes} bytes");
}

#[test]
fn memory_asked_for(rt: HostRuntime) {
    for (size, bytes) in SIZES.iter() {
        expect_memory(&rt, rt.alloc(), *size, *bytes);
    }
}

// Whether a line shows help or the version.
fn is_help(line: &Line) -> bool {
    match line {
        Line::Help(text) => !text.is_empty(),
        _ => false,
    }
}

fn is_bad(line: &Line) -> bool {
    match line {
        Line::Bad(text) => !text.is_empty(),
        _ => false,
    }
}

const HELP: &[&[&str]] = &[
    &["trac", "--help"],
    &["trac", "run", "--help"],
    &["trac", "debug", "--help"],
    &["trac", "--version"],
];

const BAD: &[&[&str]] = &[
    &["trac"],
    &["trac", "run", "--budget", "0"],
    &["trac", "run", "--budget", "1000000000001"],
    &["trac", "run", "--journal", "0"],
    &["trac", "run", "--journal", "1048577"],
    &["trac", "run", "--decimals", "65"],
    &["trac", "run", "--memory", "1023K"],
    &["trac", "run", "x"],
    &["trac", "debug"],
];

fn expect_help(rt: &impl Abort, alloc: Global, words: &[&str]) {
    let is_met = is_help(&line_of(rt, alloc, words));
    assert!(rt; is_met, "{words:?} asks for help");
}

fn expect_bad(rt: &impl Abort, alloc: Global, words: &[&str]) {
    let is_met = is_bad(&line_of(rt, alloc, words));
    assert!(rt; is_met, "{words:?} is not understood");
}

#[test]
fn lines_without_a_run(rt: HostRuntime) {
    for words in HELP.iter() {
        expect_help(&rt, rt.alloc(), words);
    }
    for words in BAD.iter() {
        expect_bad(&rt, rt.alloc(), words);
    }
}
