//! Each request for memory is refused in turn, in runs, in sessions of the debugger and in walks.
use crate::programs::{DEBUG, Program, RUN, outcome};
use std::process::Abort;
use trac_faults::Refusing;
use trac_machine_tests::faulty::NO_FAULT;
use trac_machine_tests::{EACH_PRIMITIVE, INPUT};
use trac_rules::width::Width;
use trac_run::Ending;

const TAPE: &[u8] = b"#(ds,A,(x,y))'#(ss,A,x)'#(ps,##(cl,A,1))'";

// The names that it prints are listed in order, for which a way through them takes memory too.
const LISTING: &[u8] = b"#(ds,A,x)#(ds,B,y)#(ps,#(ln,;))'";

const ORDERS: &[u8] =
    b"s 90\np\nb 3\nn\nN\nO\no\nu ps\nr\nw #1\nw \"1\"\nw A\ng 60\nf\nf A\nt 3\np all\ns 9\nl\ny #1\ns 90\ny A 1\ny\n\
      g 60\ni \"a'\"\n\nh\nx\nm\nb start\ne\n";

// A program, its input with its output, and the text of a line that says that memory was refused, if the program goes
// on then. If it does, the output is left open: it is whole lines.
type Row = (
    Program<'static>,
    (&'static [u8], &'static [u8]),
    Option<&'static [u8]>,
);

// Runs with each width of numbers, with a journal that fills and with the one that a run has if nothing else is said; a
// session with each kind of command, a walk with each kind of line, and one that follows bytes of a list of names.
const ROWS: &[Row] = &[
    (RUN, (INPUT, b"AB"), None),
    (Program::Run(65_536, Width::W128), (INPUT, b"AB"), None),
    (RUN, EACH_PRIMITIVE, None),
    (Program::Run(64, Width::W64), EACH_PRIMITIVE, None),
    (Program::Run(65_536, Width::W128), EACH_PRIMITIVE, None),
    (Program::Run(65_536, Width::W64), EACH_PRIMITIVE, None),
    (
        DEBUG,
        (b"s 11\nr rs\nb 1\nb 99\nu ps 99\nr zz\np\nc\n", b""),
        Some(b" Memory\n"),
    ),
    (
        Program::Walk(TAPE, false),
        (ORDERS, b""),
        Some(b"there is no memory for this"),
    ),
    (
        Program::Walk(LISTING, false),
        (b"s 90\ny #3\ns 90\ny #4\ns 90\ny #1\n", b""),
        Some(b"there is no memory for this"),
    ),
];

// Whether a text stands in another one.
fn contains(text: &[u8], wanted: &[u8]) -> bool {
    for at in 0..text.len() {
        if text.split_at(at).1.starts_with(wanted) {
            return true;
        }
    }
    false
}

// Whether whole lines are written, and the last line of a debugger's state if its first one is.
fn is_whole(written: &[u8]) -> bool {
    (written.is_empty() || written.last() == Some(&b'\n'))
        && contains(written, b"active [") == contains(written, b"\njournal ")
}

// Whether no way back in a session of the debugger is refused memory, since it takes none.
fn goes_back(written: &[u8]) -> bool {
    for line in written.split(|byte| *byte == b'\n') {
        let is_back = line.starts_with(b"back ") || line.starts_with(b"return ");
        if is_back && line.ends_with(b" Memory") {
            return false;
        }
    }
    true
}

// Whether this may be written if a request is refused, or if none is.
fn may_write(row: &Row, written: &[u8], is_refused: bool) -> bool {
    let output = row.1.1;
    if row.2.is_some() {
        return is_whole(written) && goes_back(written);
    }
    output.starts_with(written) && (is_refused || written.len() == output.len())
}

// Whether a program may end so: one that says that memory was refused goes on to the end.
fn may_end(row: &Row, ending: Ending, written: &[u8], is_refused: bool) -> bool {
    if !is_refused {
        return ending == Ending::Ended;
    }
    match row.2 {
        Some(said) if contains(written, said) => ending == Ending::Ended,
        _ => ending == Ending::Memory,
    }
}

// A program with this request refused, of whose input at most so many bytes come at a time: whether a request was
// refused.
fn expect_row(rt: &(impl Abort + AllocGlobal), row: &Row, most: usize, nth: u64) -> bool {
    let memory = Refusing::new(rt.alloc());
    memory.refuse_nth(nth);
    let (ending, written) = outcome(rt, rt.alloc(), &memory, row.0, row.1.0, most, NO_FAULT);
    let is_refused = memory.refusals() > 0;
    let is_met = may_write(row, written.as_slice(), is_refused)
        && may_end(row, ending, written.as_slice(), is_refused);
    assert!(rt; is_met, "request {nth} over {:?}", row.1.0);
    is_refused
}

// How many requests the program makes.
fn requests_of(rt: &(impl Abort + AllocGlobal), row: &Row, most: usize) -> u64 {
    for nth in 1..10_000 {
        if !expect_row(rt, row, most, nth) {
            return nth - 1;
        }
    }
    panic!(rt; "too few runs");
}

// Commands of the debugger that are walks.
const WALKS: &[u8] = b"s 11\nr rs\nb 1\nb 99\nu ps 99\nr zz\n";

// With this request refused, a session of walks ends before it writes anything, or says so and goes on to the end:
// whether a request was refused, and whether a walk said so.
fn expect_walks(rt: &(impl Abort + AllocGlobal), nth: u64) -> (bool, bool) {
    let memory = Refusing::new(rt.alloc());
    memory.refuse_nth(nth);
    let (ending, written) = outcome(rt, rt.alloc(), &memory, DEBUG, WALKS, 4096, NO_FAULT);
    let is_refused = memory.refusals() > 0;
    let is_told = contains(written.as_slice(), b" Memory\n");
    let wanted = if written.is_empty() {
        Ending::Memory
    } else {
        Ending::Ended
    };
    assert!(rt;
        ending == wanted && (is_told || !is_refused || written.is_empty()),
        "request {nth}"
    );
    (is_refused, is_told)
}

#[test]
fn replies_to_walks_take_no_memory(rt: HostRuntime) {
    let mut told = 0_u64;
    for nth in 1..10_000 {
        let (is_refused, is_told) = expect_walks(&rt, nth);
        if !is_refused {
            assert!(rt; told > 0);
            return;
        }
        told = told.saturating_add(u64::from(is_told));
    }
    panic!(rt; "too few runs");
}

#[test]
fn each_request(rt: HostRuntime) {
    for row in ROWS.iter() {
        for most in [4096, 1] {
            let requests = requests_of(&rt, row, most);
            assert!(rt; requests > 16, "{requests} requests");
        }
    }
}
