//! What the programs do, each over a reader and a writer: how it ends, and what it has written.
ghost use Rattle.std.specs.Prelude.{◌≡◌, ◌≤◌};

use std::alloc::{Allocator, Global};
use std::io::{Read, Write};
use std::process::Abort;
use trac_debug::debug;
use trac_machine_tests::faulty::{Failing, reader_of, writer_of};
use trac_rules::limit::JOURNAL_LIMIT;
use trac_rules::width::Width;
use trac_run::{Ending, Options, run};
use trac_walk::{Settings, walk};

/// What is done with a reader and a writer.
#[derive(Clone, Copy)]
pub(crate) enum Program<'a> {
    /// A run, whose journal may hold so many records, with numbers of this width.
    Run(usize, Width),
    /// A session of the debugger over this tape.
    Debug(&'a [u8]),
    /// A walk for a person over this tape; whether a prompt is written.
    Walk(&'a [u8], bool),
}

/// The usual run.
pub(crate) const RUN: Program<'static> = Program::Run(64, Width::W128);

/// A session over a short tape.
pub(crate) const DEBUG: Program<'static> = Program::Debug(b"AB'");

/// A walk over a short tape.
pub(crate) const WALK: Program<'static> = Program::Walk(b"AB'", false);

fn options_of(rt: &impl Abort, journal: usize, decimals: Width) -> Options
    ensures some { 1 ≤ result.journal }
    ensures most { result.journal ≤ JOURNAL_LIMIT }
    ensures budget { result.budget ≡ 1000000000 }
{
    assert!(rt; 1 <= journal && journal <= JOURNAL_LIMIT);
    Options {
        budget: 1_000_000_000,
        journal,
        decimals,
    }
}

/// A run, whose journal may hold so many records, with numbers of this width.
pub(crate) fn run_over<R: Read, W: Write, A: Allocator + Copy>(
    rt: &impl Abort,
    alloc: A,
    (journal, decimals): (usize, Width),
    reader: &mut R,
    writer: &mut W,
) -> Ending {
    let options = options_of(rt, journal, decimals);
    run(alloc, reader, writer, options)
}

/// A session of the debugger over this tape.
pub(crate) fn debug_over<R: Read, W: Write, A: Allocator + Copy>(
    alloc: A,
    tape: &[u8],
    reader: &mut R,
    writer: &mut W,
) -> Ending {
    let options = Options {
        budget: 1_000_000_000,
        journal: 64,
        decimals: Width::W128,
    };
    debug(alloc, tape, reader, writer, options)
}

/// A walk over this tape.
pub(crate) fn walk_over<R: Read, W: Write, A: Allocator + Copy>(
    alloc: A,
    tape: &[u8],
    prompt: bool,
    reader: &mut R,
    writer: &mut W,
) -> Ending {
    let settings = Settings {
        journal: 64,
        keep: 1 << 28,
        decimals: Width::W128,
        prompt,
    };
    walk(alloc, tape, reader, writer, settings)
}

// How a program ends.
fn ended<R: Read, W: Write, A: Allocator + Copy>(
    rt: &impl Abort,
    alloc: A,
    program: Program<'_>,
    reader: &mut R,
    writer: &mut W,
) -> Ending {
    match program {
        Program::Run(journal, decimals) => {
            run_over(rt, alloc, (journal, decimals), reader, writer)
        }
        Program::Debug(tape) => debug_over(alloc, tape, reader, writer),
        Program::Walk(tape, prompt) => walk_over(alloc, tape, prompt, reader, writer),
    }
}

/// How a program ends over this input, of which at most so many bytes come at a time and a call fails, and what it
/// has written. The readers and writers that fail are named here: a proof shows anew, at each call with certain
/// ones, that they read and write.
pub(crate) fn outcome<A: Allocator + Copy>(
    rt: &impl Abort,
    plain: Global,
    alloc: A,
    program: Program<'_>,
    input: &[u8],
    most: usize,
    failing: Failing,
) -> (Ending, Vec<u8>) {
    let mut reader = reader_of(input, most, failing);
    let mut writer = writer_of(plain, failing);
    let ending = ended(rt, alloc, program, &mut reader, &mut writer);
    let written = Vec::from_slice(plain, writer.contents()).expect(rt, "there was no memory");
    (ending, written)
}
