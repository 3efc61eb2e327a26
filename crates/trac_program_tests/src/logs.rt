//! When something is written: the calls of a reader and a writer that share a log. What is pending is written
//! and flushed before more is read.
use crate::programs::{debug_over, run_over, walk_over};
use std::process::Abort;
use trac_faults::{CallLog, FaultyReader, FaultyWriter, Logged, LoggedCall};
use trac_machine_tests::INPUT;
use trac_rules::width::Width;
use trac_run::Ending;

// The calls of a run over `INPUT`, one byte a read: the first line is whole with its eighth byte,
// and the second with the tenth.
const IN_A_RUN: &[LoggedCall] = &[
    LoggedCall::Flush,
    LoggedCall::Read(1),
    LoggedCall::Flush,
    LoggedCall::Read(1),
    LoggedCall::Flush,
    LoggedCall::Read(1),
    LoggedCall::Flush,
    LoggedCall::Read(1),
    LoggedCall::Flush,
    LoggedCall::Read(1),
    LoggedCall::Flush,
    LoggedCall::Read(1),
    LoggedCall::Flush,
    LoggedCall::Read(1),
    LoggedCall::Flush,
    LoggedCall::Read(1),
    LoggedCall::Write(1),
    LoggedCall::Flush,
    LoggedCall::Read(1),
    LoggedCall::Flush,
    LoggedCall::Read(1),
    LoggedCall::Write(1),
    LoggedCall::Flush,
    LoggedCall::Read(0),
    LoggedCall::Flush,
];

// The calls of a run over a program that halts, one byte a read: nothing is read after its sixth byte.
const IN_A_HALT: &[LoggedCall] = &[
    LoggedCall::Flush,
    LoggedCall::Read(1),
    LoggedCall::Flush,
    LoggedCall::Read(1),
    LoggedCall::Flush,
    LoggedCall::Read(1),
    LoggedCall::Flush,
    LoggedCall::Read(1),
    LoggedCall::Flush,
    LoggedCall::Read(1),
    LoggedCall::Flush,
    LoggedCall::Read(1),
    LoggedCall::Flush,
];

// "s 1", "forward 1", an empty line, "b 1", "back 1", and the end.
const IN_A_SESSION: &[LoggedCall] = &[
    LoggedCall::Read(4),
    LoggedCall::Write(10),
    LoggedCall::Flush,
    LoggedCall::Read(1),
    LoggedCall::Read(4),
    LoggedCall::Write(7),
    LoggedCall::Flush,
    LoggedCall::Read(0),
];

// The prompt, "s 1", where it stands; the prompt, an empty line, where it stands; the prompt and the end.
const IN_A_WALK: &[LoggedCall] = &[
    LoggedCall::Write(3),
    LoggedCall::Flush,
    LoggedCall::Read(4),
    LoggedCall::Write(36),
    LoggedCall::Flush,
    LoggedCall::Write(3),
    LoggedCall::Flush,
    LoggedCall::Read(1),
    LoggedCall::Write(35),
    LoggedCall::Flush,
    LoggedCall::Write(3),
    LoggedCall::Flush,
    LoggedCall::Read(0),
];

// The programs and their inputs are constants here: the borrow checker does not follow a call that is lent them beside
// two readers and writers that share a log.
fn noted_in_a_run(rt: &(impl Abort + AllocGlobal)) -> Option<Vec<LoggedCall>> {
    let log = CallLog::new(rt.alloc());
    let mut reader = Logged::new(FaultyReader::new(INPUT).at_most(1), &log);
    let mut writer = Logged::new(FaultyWriter::new(rt.alloc()), &log);
    let ending = run_over(rt, rt.alloc(), (64, Width::W128), &mut reader, &mut writer);
    assert!(rt; ending == Ending::Ended);
    log.take_calls()
}

fn noted_in_a_halt(rt: &(impl Abort + AllocGlobal)) -> Option<Vec<LoggedCall>> {
    let log = CallLog::new(rt.alloc());
    let mut reader = Logged::new(FaultyReader::new(b"#(hl)'B'").at_most(1), &log);
    let mut writer = Logged::new(FaultyWriter::new(rt.alloc()), &log);
    let ending = run_over(rt, rt.alloc(), (64, Width::W128), &mut reader, &mut writer);
    assert!(rt; ending == Ending::Ended);
    log.take_calls()
}

fn noted_in_a_session(rt: &(impl Abort + AllocGlobal)) -> Option<Vec<LoggedCall>> {
    let log = CallLog::new(rt.alloc());
    let mut reader = Logged::new(FaultyReader::new(b"s 1\n\nb 1\n").by_lines(), &log);
    let mut writer = Logged::new(FaultyWriter::new(rt.alloc()), &log);
    let ending = debug_over(rt.alloc(), b"AB'", &mut reader, &mut writer);
    assert!(rt; ending == Ending::Ended);
    log.take_calls()
}

fn noted_in_a_walk(rt: &(impl Abort + AllocGlobal)) -> Option<Vec<LoggedCall>> {
    let log = CallLog::new(rt.alloc());
    let mut reader = Logged::new(FaultyReader::new(b"s 1\n\n").by_lines(), &log);
    let mut writer = Logged::new(FaultyWriter::new(rt.alloc()), &log);
    let ending = walk_over(rt.alloc(), b"AB'", true, &mut reader, &mut writer);
    assert!(rt; ending == Ending::Ended);
    log.take_calls()
}

fn expect_calls(rt: &impl Abort, noted: Option<Vec<LoggedCall>>, wanted: &[LoggedCall]) {
    let Some(calls) = noted else {
        panic!(rt; "there was no memory")
    };
    assert!(rt; calls.as_slice() == wanted);
}

#[test]
fn all_is_flushed_before_more_is_read(rt: HostRuntime) {
    expect_calls(&rt, noted_in_a_run(&rt), IN_A_RUN);
    expect_calls(&rt, noted_in_a_session(&rt), IN_A_SESSION);
    expect_calls(&rt, noted_in_a_walk(&rt), IN_A_WALK);
}

#[test]
fn nothing_is_read_once_a_program_halts(rt: HostRuntime) {
    expect_calls(&rt, noted_in_a_halt(&rt), IN_A_HALT);
}
