//! Each read, write and flush fails in turn, in runs, in sessions of the debugger and in walks: what is written by
//! then, and how it ends. And input that comes in pieces of any size.
use crate::programs::{DEBUG, Program, RUN, WALK, outcome};
use std::alloc::Global;
use std::process::Abort;
use trac_machine_tests::INPUT;
use trac_machine_tests::faulty::{Failing, Fault, KINDS, NO_FAULT};
use trac_rules::width::Width;
use trac_run::Ending;

// A fault, what is written by then, and the ending.
type Row = (Fault, &'static [u8], Ending);

const IN_A_RUN: &[Row] = &[
    (Fault::Read(1), b"", Ending::Read),
    (Fault::Read(2), b"", Ending::Read),
    (Fault::Read(3), b"", Ending::Read),
    (Fault::Read(4), b"", Ending::Read),
    (Fault::Read(5), b"", Ending::Read),
    (Fault::Read(6), b"", Ending::Read),
    (Fault::Read(7), b"", Ending::Read),
    (Fault::Read(8), b"", Ending::Read),
    (Fault::Read(9), b"A", Ending::Read),
    (Fault::Read(10), b"A", Ending::Read),
    (Fault::Read(11), b"AB", Ending::Read),
    (Fault::Read(12), b"AB", Ending::Ended),
    (Fault::ReadAtEnd, b"AB", Ending::Read),
    (Fault::Write(1), b"", Ending::Write),
    (Fault::Write(2), b"A", Ending::Write),
    (Fault::Write(3), b"AB", Ending::Ended),
    (Fault::TakeNone(1), b"", Ending::Write),
    (Fault::TakeNone(2), b"A", Ending::Write),
    (Fault::TakeNone(3), b"AB", Ending::Ended),
    (Fault::TakeOne(0), b"AB", Ending::Ended),
    (Fault::TakeOne(2), b"A", Ending::Write),
    (Fault::Flush(1), b"", Ending::Write),
    (Fault::Flush(2), b"", Ending::Write),
    (Fault::Flush(3), b"", Ending::Write),
    (Fault::Flush(4), b"", Ending::Write),
    (Fault::Flush(5), b"", Ending::Write),
    (Fault::Flush(6), b"", Ending::Write),
    (Fault::Flush(7), b"", Ending::Write),
    (Fault::Flush(8), b"", Ending::Write),
    (Fault::Flush(9), b"A", Ending::Write),
    (Fault::Flush(10), b"A", Ending::Write),
    (Fault::Flush(11), b"AB", Ending::Write),
    (Fault::Flush(12), b"AB", Ending::Write),
    (Fault::Flush(13), b"AB", Ending::Ended),
];

// The first line makes `+` the meta character, the second reads the byte after it, the third has what was the meta
// character before, and the last has no end but that of the input.
const LINES: &[u8; 33] = b"#(cm,+)'#(ps,<##(rc)>)+'it's+tail";

// With three bytes a read the second line ends in the eighth, which has the byte after it too, and
// the third in the tenth.
const IN_LINES: &[Row] = &[
    (Fault::Read(2), b"", Ending::Read),
    (Fault::Read(8), b"", Ending::Read),
    (Fault::Read(9), b"<'>", Ending::Read),
    (Fault::Read(10), b"<'>", Ending::Read),
    (Fault::Read(11), b"<'>it's", Ending::Read),
    (Fault::Read(12), b"<'>it's", Ending::Read),
    (Fault::TakeOne(0), b"<'>it'stail", Ending::Ended),
    (Fault::TakeOne(5), b"<'>i", Ending::Write),
    (Fault::TakeOne(11), b"<'>it'stai", Ending::Write),
    (Fault::Flush(2), b"", Ending::Write),
    (Fault::Flush(12), b"<'>it's", Ending::Write),
    (Fault::Read(13), b"<'>it'stail", Ending::Ended),
];

// A step is taken before all is read: what it prints is written before the read that fails.
const AFTER_A_TEXT: &[Row] = &[
    (Fault::ReadAtEnd, b"AB", Ending::Read),
    (Fault::None, b"AB", Ending::Ended),
    (Fault::TakeOne(0), b"AB", Ending::Ended),
    (Fault::TakeOne(1), b"", Ending::Write),
    (Fault::TakeOne(2), b"A", Ending::Write),
    (Fault::TakeOne(3), b"AB", Ending::Ended),
];

// Two lines, the second of which has no line feed, one byte a read: the first reply is written before the fifth read,
// and the second after the eighth, which finds the end.
const COMMANDS: &[u8; 7] = b"s 3\nb 1";

const IN_A_SESSION: &[Row] = &[
    (Fault::None, b"forward 3\nback 1\n", Ending::Ended),
    (Fault::Read(1), b"", Ending::Read),
    (Fault::Read(2), b"", Ending::Read),
    (Fault::Read(3), b"", Ending::Read),
    (Fault::Read(4), b"", Ending::Read),
    (Fault::Read(5), b"forward 3\n", Ending::Read),
    (Fault::Read(6), b"forward 3\n", Ending::Read),
    (Fault::Read(7), b"forward 3\n", Ending::Read),
    (Fault::Read(8), b"forward 3\n", Ending::Read),
    (Fault::Read(9), b"forward 3\nback 1\n", Ending::Ended),
    (Fault::ReadAtEnd, b"forward 3\n", Ending::Read),
    (Fault::Write(1), b"", Ending::Write),
    (Fault::Write(2), b"forward 3\n", Ending::Write),
    (Fault::Write(3), b"forward 3\nback 1\n", Ending::Ended),
    (Fault::TakeNone(1), b"", Ending::Write),
    (Fault::TakeNone(2), b"forward 3\n", Ending::Write),
    (Fault::TakeNone(3), b"forward 3\nback 1\n", Ending::Ended),
    (Fault::TakeOne(0), b"forward 3\nback 1\n", Ending::Ended),
    (Fault::TakeOne(1), b"", Ending::Write),
    (Fault::TakeOne(4), b"for", Ending::Write),
    (Fault::TakeOne(10), b"forward 3", Ending::Write),
    (Fault::TakeOne(11), b"forward 3\n", Ending::Write),
    (Fault::TakeOne(17), b"forward 3\nback 1", Ending::Write),
    (Fault::TakeOne(18), b"forward 3\nback 1\n", Ending::Ended),
    (Fault::Flush(1), b"forward 3\n", Ending::Write),
    (Fault::Flush(2), b"forward 3\nback 1\n", Ending::Write),
    (Fault::Flush(3), b"forward 3\nback 1\n", Ending::Ended),
];

// The same lines in a walk.
const FIRST: &[u8] = b"3  \",\" ends an argument of #(ps\n";

const BOTH: &[u8] = b"3  \",\" ends an argument of #(ps\n2  \"s\" is taken as it is: s,#(rs))\n";

const IN_A_WALK: &[Row] = &[
    (Fault::None, BOTH, Ending::Ended),
    (Fault::Read(1), b"", Ending::Read),
    (Fault::Read(2), b"", Ending::Read),
    (Fault::Read(3), b"", Ending::Read),
    (Fault::Read(4), b"", Ending::Read),
    (Fault::Read(5), FIRST, Ending::Read),
    (Fault::Read(6), FIRST, Ending::Read),
    (Fault::Read(7), FIRST, Ending::Read),
    (Fault::Read(8), FIRST, Ending::Read),
    (Fault::Read(9), BOTH, Ending::Ended),
    (Fault::ReadAtEnd, FIRST, Ending::Read),
    (Fault::Write(1), b"", Ending::Write),
    (Fault::Write(2), FIRST, Ending::Write),
    (Fault::Write(3), BOTH, Ending::Ended),
    (Fault::TakeNone(1), b"", Ending::Write),
    (Fault::TakeNone(2), FIRST, Ending::Write),
    (Fault::TakeNone(3), BOTH, Ending::Ended),
    (Fault::TakeOne(0), BOTH, Ending::Ended),
    (Fault::TakeOne(1), b"", Ending::Write),
    (Fault::TakeOne(4), b"3  ", Ending::Write),
    (Fault::TakeOne(33), FIRST, Ending::Write),
    (Fault::Flush(1), FIRST, Ending::Write),
    (Fault::Flush(2), BOTH, Ending::Write),
    (Fault::Flush(3), BOTH, Ending::Ended),
];

// A program, its input, at most how many bytes of it come at a time, and the faults.
const FAULTS: &[(Program<'static>, &[u8], usize, &[Row])] = &[
    (RUN, INPUT, 1, IN_A_RUN),
    (Program::Run(65_536, Width::W128), INPUT, 1, IN_A_RUN),
    (Program::Run(65_536, Width::W64), INPUT, 1, IN_A_RUN),
    (RUN, LINES, 3, IN_LINES),
    (RUN, b"AB'", 3, AFTER_A_TEXT),
    (DEBUG, COMMANDS, 1, IN_A_SESSION),
    (
        DEBUG,
        b"s 3\n",
        4,
        &[(Fault::ReadAtEnd, b"forward 3\n", Ending::Read)],
    ),
    (WALK, COMMANDS, 1, IN_A_WALK),
];

// The program writes this and ends so.
fn expect_outcome(
    rt: &impl Abort,
    plain: Global,
    program: Program<'_>,
    (input, most): (&[u8], usize),
    failing: Failing,
    (output, ending): (&[u8], Ending),
) {
    let (met, written) = outcome(rt, plain, plain, program, input, most, failing);
    assert!(rt;
        met == ending && written.as_slice() == output,
        "{most} bytes a read of {input:?}"
    );
}

// If a call fails, with any kind of error, all is written that was to be written before it, and no more.
#[test]
fn each_fault(rt: HostRuntime) {
    for (program, input, most, rows) in FAULTS.iter() {
        for (fault, output, ending) in rows.iter() {
            for kind in KINDS.iter() {
                let failing = (*fault, *kind);
                expect_outcome(
                    &rt,
                    rt.alloc(),
                    *program,
                    (*input, *most),
                    failing,
                    (*output, *ending),
                );
            }
        }
    }
}

// Inputs, and what they print however they are cut into reads.
const PIECES: &[(&[u8], &[u8])] = &[
    (b"", b""),
    (b"a)b,c'", b"a"),
    (LINES, b"<'>it'stail"),
    (
        b"#(ds,AA,Cat)'#(ds,BB,(#(cl,AA)))'#(ps,(#(cl,BB)))'#(ps,##(cl,BB))'#(ps,#(cl,BB))'",
        b"#(cl,BB)#(cl,AA)Cat",
    ),
    (
        b"#(ds,Factorial,(#(eq,X,1,1,(#(ml,X,#(cl,Factorial,#(su,X,1)))))))'#(ss,Factorial,X)'#(cl,Factorial,5)'",
        b"120",
    ),
];

// A read gives one byte, two, and so on, up to all and more: so the first cut is at every place.
#[test]
fn pieces_of_any_size(rt: HostRuntime) {
    for (input, output) in PIECES.iter() {
        for most in 1..input.len() + 2 {
            expect_outcome(
                &rt,
                rt.alloc(),
                RUN,
                (*input, most),
                NO_FAULT,
                (*output, Ending::Ended),
            );
        }
    }
}
