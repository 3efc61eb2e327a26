//! New sessions that run or are debugged. The function that owns one makes no other call with it, and lets it go by
//! one: its proof would else carry what a session is at each call, and all that is freed.
ghost use Rattle.std.specs.Prelude.{◌≤◌};

use std::alloc::Allocator;
use std::io::{Read, Write};
use trac_debug::{DebugReport, debug_session};
use trac_rules::width::Width;
use trac_run::{RunReport, run_session};
use trac_session::Session;
use trac_streams::BUDGET_LIMIT;

fn let_go<A: Allocator + Copy>(session: Session<A>) {
    let _last = session;
}

/// What a run does by so many steps at most, with a journal of so many records. None if there is no memory for its
/// session, before which nothing is read or written.
pub(crate) fn run_new<R: Read, W: Write, A: Allocator + Copy>(
    alloc: A,
    journal: usize,
    reader: &mut R,
    writer: &mut W,
    budget: u64,
) -> Option<RunReport>
    requires { budget ≤ BUDGET_LIMIT }
{
    let Ok(mut session) = Session::new(alloc, journal.clamp(1, 65_536), Width::W128) else {
        return None;
    };
    let report = run_session(&mut session, reader, writer, budget);
    let_go(session);
    Some(report)
}

// What the debugger does over this whole tape.
fn debug_over<R: Read, W: Write, A: Allocator + Copy>(
    alloc: A,
    session: &mut Session<A>,
    tape: &[u8],
    reader: &mut R,
    writer: &mut W,
) -> Option<DebugReport> {
    let Ok(()) = session.feed(tape) else {
        return None;
    };
    session.end();
    Some(debug_session(alloc, session, reader, writer))
}

/// What a session of the debugger does over this whole tape. None if there is no memory for its session.
pub(crate) fn debug_new<R: Read, W: Write, A: Allocator + Copy>(
    alloc: A,
    tape: &[u8],
    reader: &mut R,
    writer: &mut W,
) -> Option<DebugReport> {
    let Ok(mut session) = Session::new(alloc, 64, Width::W128) else {
        return None;
    };
    let report = debug_over(alloc, &mut session, tape, reader, writer);
    let_go(session);
    report
}
