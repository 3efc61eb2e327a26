//! Memory within a limit: which blocks it refuses, and that what is given back can be had again.
use std::alloc::Global;
use trac_memory::{BLOCK_COST, Limited};

type Memory<'a> = &'a Limited<Global>;

// Whether there is a block of so many bytes. It is given back at once.
fn gives(memory: Memory<'_>, bytes: usize) -> bool {
    let block: Result<Vec<u8, Memory<'_>>, _> = Vec::with_capacity(memory, bytes);
    block.is_ok()
}

// How many of so many bytes a list takes, one by one, until it may not grow.
fn grown_to(memory: Memory<'_>, most: usize) -> usize {
    let mut list = Vec::new(memory);
    for _ in 0..most {
        if list.push(0u8).is_err() {
            return list.len();
        }
    }
    list.len()
}

#[test]
fn blocks_up_to_the_limit(rt: HostRuntime) {
    let memory = Limited::new(rt.alloc(), 1_000 + BLOCK_COST);
    for _ in 0..3 {
        assert!(rt; gives(&memory, 1_000));
        assert!(rt; !gives(&memory, 1_001));
    }
}

#[test]
fn blocks_beside_one_another(rt: HostRuntime) {
    let memory = Limited::new(rt.alloc(), 1_000 + 2 * BLOCK_COST);
    let first: Result<Vec<u8, Memory<'_>>, _> = Vec::with_capacity(&memory, 600);
    assert!(rt; first.is_ok() && gives(&memory, 400) && !gives(&memory, 401));
}

// Its blocks have 8, 16 .. 512 bytes.
#[test]
fn a_list_that_grows(rt: HostRuntime) {
    let memory = Limited::new(rt.alloc(), 1_000 + BLOCK_COST);
    assert!(rt; grown_to(&memory, 2_000) == 512);
    assert!(rt; gives(&memory, 1_000));
}
