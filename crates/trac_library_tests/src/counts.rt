//! What runs and sessions of the debugger say that they did: how many steps, lines and reads.
ghost use Rattle.std.specs.Prelude.{◌≤◌};

use crate::new_sessions::{debug_new, run_new};
use std::alloc::Global;
use std::io::ErrorKind;
use std::process::Abort;
use trac_debug::DebugReport;
use trac_machine_tests::faulty::{Failing, Fault, NO_FAULT, reader_of, writer_of};
use trac_run::{Ending, RunReport};
use trac_streams::BUDGET_LIMIT;

const USUAL: u64 = 1_000_000_000;

// A read that fails, once all bytes are given.
const READ_FAULT: Failing = (Fault::ReadAtEnd, ErrorKind::Other);

// What a run does over this input, at most so many bytes a read, with this budget: how it ends, and how
// many steps it takes and reads it makes. A new session takes seven steps up to its first `rs`, and twelve
// for a round of the idle program.
const RUNS: &[(&[u8], usize, Failing, u64, (Ending, u64, u128))] = &[
    (b"", 4096, NO_FAULT, USUAL, (Ending::Ended, 7, 1)),
    (b"", 4096, NO_FAULT, 7, (Ending::Budget, 7, 0)),
    (b"", 4096, READ_FAULT, USUAL, (Ending::Read, 7, 1)),
    (b"AB'", 4096, NO_FAULT, USUAL, (Ending::Ended, 19, 2)),
    (b"AB'", 4096, NO_FAULT, 20, (Ending::Ended, 19, 2)),
    (b"AB'", 4096, NO_FAULT, 19, (Ending::Budget, 19, 1)),
    (b"AB'", 1, NO_FAULT, USUAL, (Ending::Ended, 19, 4)),
    (b"AB'", 1, READ_FAULT, USUAL, (Ending::Read, 19, 4)),
    (b"a(b", 4096, NO_FAULT, USUAL, (Ending::Ended, 18, 2)),
    (b"a)b,c'", 4096, NO_FAULT, USUAL, (Ending::Ended, 22, 2)),
];

// What the debugger does with these commands over `AB'`: how it ends, and how many lines it is done
// with and reads it makes.
const SESSIONS: &[(&[u8], usize, (Ending, u64, u64))] = &[
    (b"", 4096, (Ending::Ended, 0, 1)),
    (
        b"s 11\nb 1\np\nu rs 100\nc\nq\n",
        4096,
        (Ending::Ended, 5, 1),
    ),
    (b"s 20\nr rs\nb 99\nr rs\n", 4096, (Ending::Ended, 4, 2)),
    (b"s 20\nr rs\nb 99\nr rs\n", 1, (Ending::Ended, 4, 21)),
    (b"s 3\nx\n", 4096, (Ending::NotUnderstood { line: 2 }, 1, 1)),
    (b"s 3\n\n", 4096, (Ending::Ended, 2, 2)),
];

// What a run did.
fn run_of(alloc: Global, read: (&[u8], usize, Failing), budget: u64) -> Option<RunReport>
    requires { budget ≤ BUDGET_LIMIT }
{
    let (input, most, failing) = read;
    let mut reader = reader_of(input, most, failing);
    let mut writer = writer_of(alloc, NO_FAULT);
    run_new(alloc, 64, &mut reader, &mut writer, budget)
}

// What a session of the debugger did.
fn session_of(alloc: Global, commands: &[u8], most: usize) -> Option<DebugReport> {
    let mut reader = reader_of(commands, most, NO_FAULT);
    let mut writer = writer_of(alloc, NO_FAULT);
    debug_new(alloc, b"AB'", &mut reader, &mut writer)
}

fn expect_run(
    rt: &impl Abort,
    did: Option<RunReport>,
    (ending, steps, reads): (Ending, u64, u128),
) {
    let wanted = RunReport {
        ending,
        steps,
        reads,
    };
    assert!(rt; did == Some(wanted));
}

fn expect_session(
    rt: &impl Abort,
    did: Option<DebugReport>,
    (ending, lines, reads): (Ending, u64, u64),
) {
    let wanted = DebugReport {
        ending,
        lines,
        reads,
    };
    assert!(rt; did == Some(wanted));
}

#[test]
fn steps_and_reads_of_a_run(rt: HostRuntime) {
    for (input, most, failing, budget, wanted) in RUNS.iter() {
        expect_run(
            &rt,
            run_of(rt.alloc(), (input, *most, *failing), (*budget).min(USUAL)),
            *wanted,
        );
    }
}

#[test]
fn lines_and_reads_of_a_session(rt: HostRuntime) {
    for (commands, most, wanted) in SESSIONS.iter() {
        expect_session(&rt, session_of(rt.alloc(), commands, *most), *wanted);
    }
}
