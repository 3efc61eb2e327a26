//! Which requests for memory are refused, and what the counts of them say.
use crate::Memory;
use std::process::Abort;
use trac_faults::Refusing;

// Whether a block is given, and whether it grows then, and gives back what it has no use for: which are three requests.
fn ask(memory: Memory<'_>) -> (bool, bool) {
    let mut numbers = Vec::new(memory);
    let is_given = numbers.push(1).is_ok();
    let is_grown = numbers.reserve(1_000).is_ok();
    numbers.shrink_to_fit();
    (is_given, is_grown)
}

fn expect_counts(rt: &impl Abort, memory: Memory<'_>, requests: u64, refusals: u64) {
    assert!(rt; memory.requests() == requests && memory.refusals() == refusals);
}

// All are accepted at first. The third from then on is refused alone, or all are until it is told otherwise.
#[test]
fn refuses_what_it_is_told_to(rt: HostRuntime) {
    let memory = Refusing::new(rt.alloc());
    assert!(rt; ask(&memory) == (true, true));
    expect_counts(&rt, &memory, 3, 0);
    memory.refuse_nth(2);
    assert!(rt; ask(&memory) == (true, false));
    assert!(rt; ask(&memory) == (true, true));
    expect_counts(&rt, &memory, 9, 1);
    memory.refuse_all();
    assert!(rt; ask(&memory) == (false, false));
    expect_counts(&rt, &memory, 11, 3);
    memory.accept_all();
    assert!(rt; ask(&memory) == (true, true));
    expect_counts(&rt, &memory, 14, 3);
}
