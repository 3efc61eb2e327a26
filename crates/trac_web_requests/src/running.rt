//! A run of a text.
ghost use Rattle.std.specs.Prelude.{◌≡◌, ◌≤◌};
ghost use Rattle.trac_rules.specs.Session.{PlainSession, new_session};
ghost use Rattle.trac_run.specs.Runs.{TakesSteps};
ghost use Rattle.trac_web_requests.specs.Replies.{Gives};
ghost use Rattle.trac_web_requests.specs.Requests.{WritesRun};

use crate::outcome::Outcome;
use crate::reply::{Reply, deliver};
use std::alloc::Allocator;
use trac_rules::width::Width;
use trac_run::run_session;
use trac_session::Session;
use trac_streams::{BUDGET_LIMIT, Ending};

// How many records the journal of a run may hold, as of the program's if nothing else is said.
const RECORDS: usize = 65_536;

/// Runs a program with all of its input, as `trac_run::run` does, into the buffer of the host, and counts its steps.
pub fn run_text<A: Allocator + Copy>(
    alloc: A,
    input: &[u8],
    budget: u64,
    width: Width,
    output: &mut [u8],
    written: &mut usize,
    steps: &mut u64,
) -> Outcome
    requires { budget ≤ BUDGET_LIMIT }
    ensures gives { Gives (WritesRun width budget steps.new input.now) output.old output.new written.new result }
    ensures within { steps.new ≤ budget }
    ensures counted { (q : PlainSession) × TakesSteps steps.new (new_session RECORDS width) q }
{
    *steps = 0;
    let Ok(mut session) = Session::new(alloc, RECORDS, width) else {
        return deliver(&[], Ending::Memory, output, written);
    };
    let mut rest = input;
    let mut reply = Reply::new(alloc, output.len());
    let report = run_session(&mut session, &mut rest, &mut reply, budget);
    *steps = report.steps;
    deliver(reply.text(), report.ending, output, written)
}
