//! What a run has written is just what its steps print, also if a request for memory is refused.
ghost use Rattle.std.specs.Prelude.{◌≤◌};

use crate::new_sessions::run_new;
use std::alloc::{Allocator, Global};
use std::process::Abort;
use trac_faults::Refusing;
use trac_machine_tests::faulty::{NO_FAULT, reader_of, writer_of};
use trac_machine_tests::{EACH_PRIMITIVE, INPUT};
use trac_run::{Ending, RunReport};
use trac_streams::BUDGET_LIMIT;

const USUAL: u64 = 1_000_000_000;

// How many records the journal may hold.
const JOURNALS: &[usize] = &[64, 65_536];

// What a run does by so many steps at most, and what it has written. None if there is no memory for its session, before
// which nothing is read or written.
fn run_of<A: Allocator + Copy>(
    plain: Global,
    alloc: A,
    row: (&[u8], usize),
    budget: u64,
) -> Option<(RunReport, Vec<u8>)>
    requires { budget ≤ BUDGET_LIMIT }
{
    let (input, journal) = row;
    let mut reader = reader_of(input, 4096, NO_FAULT);
    let mut writer = writer_of(plain, NO_FAULT);
    let report = run_new(alloc, journal, &mut reader, &mut writer, budget)?;
    let written = Vec::from_slice(plain, writer.contents()).ok()?;
    Some((report, written))
}

// However a run ends with this request refused, it has written what a run with its steps for a budget writes: whether a
// request was refused, and whether something was written then.
fn expect_printed(rt: &(impl Abort + AllocGlobal), row: (&[u8], usize), nth: u64) -> (bool, bool) {
    let memory = Refusing::new(rt.alloc());
    memory.refuse_nth(nth);
    let met = run_of(rt.alloc(), &memory, row, USUAL);
    let is_refused = memory.refusals() > 0;
    let Some((report, written)) = met else {
        return (is_refused, false);
    };
    let Some((plain, printed)) = run_of(rt.alloc(), rt.alloc(), row, report.steps.min(USUAL)) else {
        panic!(rt; "there was no memory")
    };
    assert!(rt; plain.steps == report.steps && plain.ending == Ending::Budget);
    assert!(rt; written.as_slice() == printed.as_slice(), "request {nth}");
    (is_refused, is_refused && !written.is_empty())
}

// In how many runs something was written before a request was refused.
fn runs_that_print(rt: &(impl Abort + AllocGlobal), row: (&[u8], usize)) -> u64 {
    let mut count = 0_u64;
    for nth in 1..10_000 {
        let (is_refused, has_printed) = expect_printed(rt, row, nth);
        if !is_refused {
            return count;
        }
        count = count.saturating_add(u64::from(has_printed));
    }
    panic!(rt; "too few runs");
}

#[test]
fn just_what_the_steps_print(rt: HostRuntime) {
    for journal in JOURNALS.iter() {
        let (each, _printed) = EACH_PRIMITIVE;
        runs_that_print(&rt, (INPUT, *journal));
        let count = runs_that_print(&rt, (each, *journal));
        assert!(rt; count > 9, "{count} runs");
    }
}
