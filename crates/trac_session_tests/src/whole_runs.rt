//! Whole runs of a session, step by step: to the end, and all the way back, where each state is the one on the way out.
//! Each request for memory is refused in turn on the way out, and all of them on the way back. With a commit after each
//! step that keeps so many, the states are the same but for what was released, and the way back goes so far.
use crate::sessions::{Subject, SubjectOver, made};
use std::alloc::Global;
use std::process::Abort;
use trac_faults::Refusing;
use trac_machine_tests::{EACH_PRIMITIVE, Memory, programs};
use trac_rules::refusal::Refusal;
use trac_rules::width::Width;
use trac_session::{Session, Walk};

// The input of a program that reads a form by segments, single bytes, counts and up to a text, sets the meta character,
// reads one byte, turns the trace on and off, and halts before it prints what it has gathered.
const EACH_READING: &[u8] =
    b"#(ds,F,axbcy)#(ss,F,x,y)#(cs,F)#(cc,F)#(cn,F,-1)#(in,F,c)#(cm,;)'#(rc)xy#(tn)#(tf)z#(hl);w;";

// Three print `AB`: in one part, in two, and by calls on a form. The last one puts three forms
// aside and brings them back.
const SHORT_RUNS: &[(&[u8], &[u8])] = &[
    EACH_PRIMITIVE,
    (b"AB'", b"AB"),
    (b"#(ps,A)'B'", b"AB"),
    (
        b"#(ds,a,AxB)'#(ss,a,x)#(cl,a)#(cr,a)#(eq,#(ln,),a,,no)#(dd,a)#(pf,a)#(da)'",
        b"AB",
    ),
    (EACH_READING, b"abbb#(tf)\n"),
    (
        b"#(ds,A,1)#(ds,B,2)#(ds,a,3)#(sb,G,A,B,a)#(fb,G)#(eb,G)#(cl,A)#(cl,B)#(cl,a)'",
        b"123",
    ),
];

// How many steps the commits keep in further runs of each program.
const WINDOWS: &[Option<usize>] = &[Some(0), Some(1), Some(5), Some(1_000)];

// The runs in which each request for memory is refused: without a commit, and with one after each step.
const REFUSED_RUNS: &[Option<usize>] = &[None, Some(5)];

// The widths of numbers. These programs print the same with both.
const WIDTHS: &[Width] = &[Width::W128, Width::W64];

// How many records the journal of a run without commits may hold, as that of the programs if nothing else is said.
const JOURNAL: usize = 65_536;

/// What a run is over.
#[derive(Clone, Copy)]
struct Run<'a> {
    plain: Global,
    memory: Memory<'a>,
    width: Width,
    input: &'a [u8],
    output: &'a [u8],
    // how many steps the commit keeps that is made after each step; none is made without it
    window: Option<usize>,
}

/// How many bytes commits have released of the output, and dropped of the input.
#[derive(Clone, Copy)]
struct Released {
    printed: usize,
    read: usize,
}

const NOTHING_RELEASED: Released = Released {
    printed: 0,
    read: 0,
};

// The first bytes of a text, so many or all.
fn front(text: &[u8], count: usize) -> &[u8] {
    text.split_at(count.min(text.len())).0
}

// The bytes after these.
fn rest(text: &[u8], count: usize) -> &[u8] {
    text.split_at(count.min(text.len())).1
}

// The text is this one.
fn expect_text(rt: &impl Abort, text: &[u8], wanted: &[u8]) {
    assert_eq!(rt; text, wanted);
}

// What the session shows of its last state, with all that was released before it.
fn shown(rt: &impl Abort, run: &Run<'_>, session: &impl Subject, released: Released) -> Vec<u8> {
    let printed = front(run.output, released.printed);
    session
        .shown(run.plain, printed, released.read)
        .expect(rt, "there was no memory")
}

// A session shows this, with what was released.
fn expect_shown(
    rt: &impl Abort,
    run: &Run<'_>,
    session: &impl Subject,
    released: Released,
    state: &[u8],
) {
    expect_text(rt, shown(rt, run, session, released).as_slice(), state);
}

fn expect_walk(rt: &impl Abort, walk: Walk, done: u64, why: Refusal) {
    assert!(rt; walk.done == done && walk.why == Some(why));
}

// All of the input is fed, and then it ends. One request may be refused: that is answered as such, the tape is as
// before, and the next try is accepted.
fn feed_all(rt: &impl Abort, run: &Run<'_>, session: &mut impl Subject) {
    let refusals = run.memory.refusals();
    if let Err(refusal) = session.feed(run.input) {
        assert!(rt; refusal == Refusal::Memory && run.memory.refusals() > refusals);
        assert!(rt; session.unread().is_empty());
        session.feed(run.input).expect(rt, "it was refused again");
    }
    session.end();
}

// Commits, for which no memory is wanted.
fn commit_at(rt: &impl Abort, memory: Memory<'_>, session: &mut impl Subject, keep: usize) {
    let requests = memory.requests();
    session.commit(keep);
    assert!(rt; memory.requests() == requests);
}

// How many bytes of output a commit that keeps so many steps says to release: what the program prints next.
fn released_by(
    rt: &impl Abort,
    run: &Run<'_>,
    session: &impl Subject,
    printed: usize,
    keep: usize,
) -> usize {
    let text = session.pending_before(keep);
    expect_text(rt, text, front(rest(run.output, printed), text.len()));
    text.len()
}

// Makes the commit of this run, if there is one, and returns what is released by then.
fn commit(
    rt: &impl Abort,
    run: &Run<'_>,
    session: &mut impl Subject,
    released: Released,
) -> Released {
    let Some(keep) = run.window else {
        return released;
    };
    let more = released_by(rt, run, session, released.printed, keep);
    let before = session.position();
    commit_at(rt, run.memory, session, keep);
    let dropped = before.saturating_sub(session.position());
    Released {
        printed: released.printed.saturating_add(more),
        read: released.read.saturating_add(dropped),
    }
}

// Takes a step from this state. One request may be refused: that is answered as such, nothing has changed then, and the
// next try is accepted. Returns why no step is taken.
fn step_from(
    rt: &impl Abort,
    run: &Run<'_>,
    session: &mut impl Subject,
    released: Released,
    state: &[u8],
) -> Option<Refusal> {
    let refusals = run.memory.refusals();
    let why = session.forward(1).why;
    assert!(rt; (why == Some(Refusal::Memory)) == (run.memory.refusals() > refusals));
    if why != Some(Refusal::Memory) {
        return why;
    }
    expect_shown(rt, run, session, released, state);
    session.forward(1).why
}

// To the end, step by step: the state before each step, and the last one. Returns what is released.
fn to_end(
    rt: &impl Abort,
    run: &Run<'_>,
    session: &mut impl Subject,
    states: &mut Vec<Vec<u8>>,
) -> Released {
    let mut released = NOTHING_RELEASED;
    for _ in 0..5_000 {
        let state = shown(rt, run, session, released);
        let why = step_from(rt, run, session, released, state.as_slice());
        released = commit(rt, run, session, released);
        states.push(state).expect(rt, "there was no memory");
        if let Some(refusal) = why {
            assert!(rt; refusal == Refusal::Ended);
            return released;
        }
    }
    panic!(rt; "too few steps");
}

// All the way back, step by step, while every request for memory is refused: none is made. The first state has
// no output, and has read nothing.
fn to_start(
    rt: &impl Abort,
    run: &Run<'_>,
    session: &mut impl Subject,
    released: Released,
    states: &[Vec<u8>],
) {
    let requests = run.memory.requests();
    run.memory.refuse_all();
    for state in states.iter().rev() {
        expect_shown(rt, run, session, released, state.as_slice());
        session.back(1);
    }
    expect_walk(rt, session.back(1), 0, Refusal::AtStart);
    assert!(rt; session.pending().is_empty() && session.position() == 0);
    assert!(rt; run.memory.requests() == requests);
    run.memory.accept_all();
}

// Of the states on the way out, those that the commits have kept.
fn kept_of(states: &[Vec<u8>], window: Option<usize>) -> &[Vec<u8>] {
    let Some(keep) = window else {
        return states;
    };
    rest_of(states, states.len().saturating_sub(keep.saturating_add(1)))
}

fn rest_of(states: &[Vec<u8>], count: usize) -> &[Vec<u8>] {
    states.split_at(count.min(states.len())).1
}

// To the end and all the way back: each state is the one on the way out. The same steps at once lead to the end again.
fn there_and_back(
    rt: &impl Abort,
    run: &Run<'_>,
    session: &mut impl Subject,
    states: &mut Vec<Vec<u8>>,
) {
    feed_all(rt, run, session);
    let released = to_end(rt, run, session, states);
    expect_text(rt, session.pending(), rest(run.output, released.printed));
    let kept = kept_of(states.as_slice(), run.window);
    to_start(rt, run, session, released, kept);
    let steps = kept.len().saturating_sub(1) as u64;
    expect_walk(rt, session.forward(u64::MAX), steps, Refusal::Ended);
}

// How many records the journal of a run has to hold: with commits one more than they keep.
fn journal_of(window: Option<usize>) -> usize {
    match window {
        Some(keep) => keep.saturating_add(1),
        None => JOURNAL,
    }
}

// The states of such a run, the first one first.
fn states_of<'a, S: SubjectOver<Memory<'a>>>(rt: &impl Abort, run: &Run<'a>) -> Vec<Vec<u8>> {
    let mut session: S = made(
        rt,
        run.memory,
        run.memory,
        journal_of(run.window),
        run.width,
    );
    let mut states = Vec::new(run.plain);
    there_and_back(rt, run, &mut session, &mut states);
    states
}

// A run with commits, or in which a request is refused, has these states too.
fn expect_states<'a, S: SubjectOver<Memory<'a>>>(
    rt: &impl Abort,
    run: &Run<'a>,
    states: &[Vec<u8>],
) {
    assert!(rt; states_of::<S>(rt, run).as_slice() == states);
}

// The run again and again, with one more request accepted before the refused one each time, until none is refused. A
// moved byte takes no memory, so there may be fewer requests than steps.
fn expect_each_request<'a, S: SubjectOver<Memory<'a>>>(
    rt: &impl Abort,
    run: &Run<'a>,
    states: &[Vec<u8>],
) {
    for nth in 1..10_000 {
        let refusals = run.memory.refusals();
        run.memory.refuse_nth(nth);
        expect_states::<S>(rt, run, states);
        run.memory.accept_all();
        if run.memory.refusals() == refusals {
            assert!(rt; nth > 10, "{nth} runs");
            return;
        }
    }
    panic!(rt; "too few runs");
}

// A run without a commit, and one with each of these windows; each request is refused in turn, or none.
fn expect_runs<'a, S: SubjectOver<Memory<'a>>>(
    rt: &impl Abort,
    run: Run<'a>,
    windows: &[Option<usize>],
    is_refused: bool,
) {
    let states = states_of::<S>(rt, &run);
    for window in windows.iter() {
        let window = *window;
        let further = Run { window, ..run };
        if is_refused {
            expect_each_request::<S>(rt, &further, states.as_slice());
        } else {
            expect_states::<S>(rt, &further, states.as_slice());
        }
    }
}

// The same, over memory that no other run takes.
fn expect_program(
    rt: &(impl Abort + AllocGlobal),
    width: Width,
    (input, output): (&[u8], &[u8]),
    windows: &[Option<usize>],
    is_refused: bool,
) {
    let memory = Refusing::new(rt.alloc());
    let run = Run {
        plain: rt.alloc(),
        memory: &memory,
        width,
        input,
        output,
        window: None,
    };
    expect_runs::<Session<Memory<'_>>>(rt, run, windows, is_refused);
}

#[test]
fn each_state_on_the_way_back(rt: HostRuntime) {
    for program in programs().iter() {
        expect_program(&rt, Width::W128, *program, WINDOWS, false);
    }
}

#[test]
fn each_request(rt: HostRuntime) {
    for program in SHORT_RUNS.iter() {
        for width in WIDTHS.iter() {
            expect_program(&rt, *width, *program, REFUSED_RUNS, true);
        }
    }
}
