//! The program that is debugged, as it is read: whole, or not at all. One that is too long is tried
//! by `tests/data/sessions`.
use std::alloc::Allocator;
use std::io::Read;
use trac_faults::Refusing;
use trac_machine_tests::faulty::{Failing, Fault, KINDS, NO_FAULT, reader_of};
use trac_run::Ending;
use trac_streams::read_tape;

// Seven bytes: read one by one, the eighth read finds the end.
const PROGRAM: &[u8; 7] = b"#(ps,A)";

// Whether all of it is read, or why not; and how many bytes are left.
type Outcome = (Result<bool, Ending>, usize);

// What fails while that is read, at most so many bytes at a time, and what comes of it.
const READS: &[(Fault, usize, Outcome)] = &[
    (Fault::Read(1), 1, (Err(Ending::Read), 7)),
    (Fault::Read(2), 1, (Err(Ending::Read), 6)),
    (Fault::Read(3), 1, (Err(Ending::Read), 5)),
    (Fault::Read(4), 1, (Err(Ending::Read), 4)),
    (Fault::Read(5), 1, (Err(Ending::Read), 3)),
    (Fault::Read(6), 1, (Err(Ending::Read), 2)),
    (Fault::Read(7), 1, (Err(Ending::Read), 1)),
    (Fault::Read(8), 1, (Err(Ending::Read), 0)),
    (Fault::Read(9), 1, (Ok(true), 0)),
    (Fault::ReadAtEnd, 4096, (Err(Ending::Read), 0)),
    (Fault::None, 1, (Ok(true), 0)),
    (Fault::None, 7, (Ok(true), 0)),
    (Fault::None, 4096, (Ok(true), 0)),
];

// What is read as a tape.
fn tape_of<R: Read, A: Allocator + Copy>(alloc: A, reader: &mut R) -> Result<Vec<u8, A>, Ending> {
    read_tape(alloc, reader)
}

// What comes of a read of these bytes as a tape.
fn outcome<A: Allocator + Copy>(
    alloc: A,
    bytes: &[u8],
    (failing, most): (Failing, usize),
) -> Outcome {
    let mut reader = reader_of(bytes, most, failing);
    let met = match tape_of(alloc, &mut reader) {
        Ok(tape) => Ok(tape.as_slice() == bytes),
        Err(ending) => Err(ending),
    };
    (met, reader.rest().len())
}

#[test]
fn each_read(rt: HostRuntime) {
    for (fault, most, wanted) in READS.iter() {
        for kind in KINDS.iter() {
            let met = outcome(rt.alloc(), PROGRAM, ((*fault, *kind), *most));
            assert!(rt; met == *wanted);
        }
    }
}

// Each request of a read of `PROGRAM`, one byte at a time, is refused in turn.
#[test]
fn each_request_of_a_read(rt: HostRuntime) {
    for nth in 1..100 {
        let memory = Refusing::new(rt.alloc());
        memory.refuse_nth(nth);
        let met = outcome(&memory, PROGRAM, (NO_FAULT, 1));
        if memory.refusals() == 0 {
            assert!(rt; nth > 1 && met == (Ok(true), 0));
            return;
        }
        assert!(rt; met.0 == Err(Ending::Memory));
    }
    panic!(rt; "too few runs");
}
