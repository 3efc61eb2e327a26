//! How many bytes a session holds: what its rooms take, a fixed number for each record, and some for each unit that its
//! records weigh. So no copy of a state hides in it, which no clause could tell: clauses speak of what a session shows.
ghost use Rattle.std.specs.Prelude.{◌≤◌};

use crate::sessions::{Subject, SubjectOver};
use linked_list_allocator::LocalHeap;
use std::alloc::Global;
use std::process::Abort;
use trac_rules::limit::JOURNAL_LIMIT;
use trac_rules::refusal::Refusal;
use trac_rules::width::Width;
use trac_session::Session;

type Heap<'a> = &'a LocalHeap;

// How many bytes a long text has: a state holds several.
const LONG: usize = 20_000;

// How many bytes there are. A copy of the state in each record would take a hundred times as many.
const HEAP_SIZE: usize = 16 * 1024 * 1024;

// How many bytes the rooms may take beside what is held before them: text, output, what calls make and print, each with
// as much to spare, and eight bytes for each item of a form.
const ROOMS: usize = 24 * LONG;

// How many bytes each record may take, and each unit of weight: a list that grows has places for twice as many at most,
// an item of a form has eight bytes, and so has a comma with its place.
const RECORD_BYTES: usize = 256;

const WEIGHT_BYTES: usize = 32;

// What is done many times, while a long text is gathered and a long one is printed and not released: calls, one of them
// on a form and one on its pointer, protected texts, deleted bytes and moved ones.
const REPEATED: &[u8] = b"#(eq,a,b,c,(d))##(ds,G,x)#(cc,F)\t(e)#f";

const TIMES: usize = 200;

fn new_session<'a, S: SubjectOver<Heap<'a>>>(rt: &impl Abort, heap: Heap<'a>) -> S {
    S::new_one(heap, JOURNAL_LIMIT, Width::W128).expect(rt, "there was no memory")
}

fn feed(session: &mut impl Subject, bytes: &[u8]) -> Result<(), Refusal> {
    session.feed(bytes)
}

fn go_on(session: &mut impl Subject, n: u64) -> Option<Refusal> {
    session.forward(n).why
}

// Feeds a text, so many of another one, and a last one.
fn feed_many(
    rt: &impl Abort,
    alloc: Global,
    session: &mut impl Subject,
    before: &[u8],
    (text, times): (&[u8], usize),
    after: &[u8],
) {
    let mut out = Vec::new(alloc);
    add(rt, &mut out, before);
    for _ in 0..times {
        add(rt, &mut out, text);
    }
    add(rt, &mut out, after);
    feed(session, out.as_slice()).expect(rt, "it was refused");
}

fn add(rt: &impl Abort, out: &mut Vec<u8>, text: &[u8]) {
    out.extend_from_slice(text)
        .expect(rt, "there was no memory");
}

// Defines a long form, and forgets the steps.
fn define(rt: &impl Abort, alloc: Global, session: &mut impl Subject) {
    feed_many(rt, alloc, session, b"#(ds,F,(", (b"a", LONG), b"))'");
    assert!(rt; go_on(session, u64::MAX) == Some(Refusal::NeedInput));
    session.commit(0);
}

// How many bytes the records may take.
fn records_take(session: &impl Subject) -> usize {
    let records = session.len().saturating_mul(RECORD_BYTES);
    let weight = (session.weight() as usize).saturating_mul(WEIGHT_BYTES);
    records.saturating_add(weight)
}

// Of so many bytes that were held before, the session holds no more than these, its rooms, and its records.
fn expect_held(rt: &impl Abort, heap: Heap<'_>, session: &impl Subject, before: usize) {
    let most = before
        .saturating_add(ROOMS)
        .saturating_add(records_take(session));
    assert!(rt; heap.used() <= most, "{} bytes of {most}", heap.used());
}

// Goes forward in parts of so many steps until the input has to go on, with a commit after each if it keeps some.
fn go_through(
    rt: &impl Abort,
    heap: Heap<'_>,
    session: &mut impl Subject,
    part: u64,
    window: Option<usize>,
) {
    let before = heap.used();
    for _ in 0..100_000 {
        let why = go_on(session, part);
        if let Some(keep) = window {
            session.commit(keep);
        }
        expect_held(rt, heap, session, before);
        if why.is_some() {
            assert!(rt; why == Some(Refusal::NeedInput));
            return;
        }
    }
    panic!(rt; "too few parts");
}

fn expect_run_on<'a, S: SubjectOver<Heap<'a>>>(
    rt: &impl Abort,
    alloc: Global,
    heap: Heap<'a>,
    part: u64,
    window: Option<usize>,
) {
    let mut session: S = new_session(rt, heap);
    define(rt, alloc, &mut session);
    let many = (REPEATED, TIMES);
    feed_many(rt, alloc, &mut session, b"##(cl,F)#(pf,F)", many, b"'");
    go_through(rt, heap, &mut session, part, window);
}

fn expect_run(rt: &impl Abort, alloc: Global, part: u64, window: Option<usize>) {
    let heap = LocalHeap::new(alloc, HEAP_SIZE).expect(rt, "there was no memory");
    expect_run_on::<Session<Heap<'_>>>(rt, alloc, &heap, part, window);
}

#[test]
fn bytes_of_records(rt: HostRuntime) {
    expect_run(&rt, rt.alloc(), 50, None);
    expect_run(&rt, rt.alloc(), 1, Some(5));
}

// How many names are given and deleted again.
const NAMES: usize = 2_000;

// A form of this number is put and deleted. Then the session goes back over a step, commits and keeps so many: how many
// bytes are held then.
fn put_and_delete(
    rt: &impl Abort,
    alloc: Global,
    heap: Heap<'_>,
    session: &mut impl Subject,
    keep: usize,
    number: usize,
) -> usize {
    let name = format!(in alloc; "a name of some length {:05}", number);
    let name = name.expect(rt, "there was no memory");
    let text = format!(in alloc; "#(ds,{},b)#(dd,{})'", name.as_str(), name.as_str());
    let text = text.expect(rt, "there was no memory");
    feed(session, text.as_bytes()).expect(rt, "it was refused");
    assert!(rt; go_on(session, u64::MAX) == Some(Refusal::NeedInput));
    assert!(rt; session.back(1).done == 1);
    session.commit(keep);
    heap.used()
}

// Many forms are put and deleted, with a commit after each that keeps so many steps.
fn expect_names_on<'a, S: SubjectOver<Heap<'a>>>(
    rt: &impl Abort,
    alloc: Global,
    heap: Heap<'a>,
    keep: usize,
) {
    let mut session: S = new_session(rt, heap);
    let mut most = 0;
    for number in 0..NAMES {
        let held = put_and_delete(rt, alloc, heap, &mut session, keep, number);
        if number < 9 {
            most = held.max(most);
        }
        assert!(rt;
            held <= most,
            "{held} bytes of {most} at {number}, {keep} steps kept"
        );
    }
}

fn expect_names(rt: &impl Abort, alloc: Global, keep: usize) {
    let heap = LocalHeap::new(alloc, HEAP_SIZE).expect(rt, "there was no memory");
    expect_names_on::<Session<Heap<'_>>>(rt, alloc, &heap, keep);
}

// Names of deleted forms take nothing once a commit keeps the last state alone, or steps that need none of them.
#[test]
fn bytes_of_deleted_names(rt: HostRuntime) {
    expect_names(&rt, rt.alloc(), 0);
    expect_names(&rt, rt.alloc(), 1);
}
