//! A machine itself, on the plain representation of its lists: each step is tried with each request for memory refused
//! in turn, undone while all are refused, and taken again. On the other one sessions go the same ways.
use crate::{Memory, programs, shown_after};
use std::alloc::{Allocator, Global};
use std::process::Abort;
use trac_faults::Refusing;
use trac_gap::{PlainEnds, TwoEnds};
use trac_rules::refusal::Refusal;
use trac_rules::width::Width;
use trac_step::{Core, Mark, Parts, Record, Tape};

/// What these tests tell a machine, and what it shows them. Helpers are over any type of this kind: a proof over
/// machines would carry what a machine is, at each call.
pub(crate) trait Subject: Sized + Drop {
    /// The next step over this whole input, whose record is let go.
    fn take_step(&mut self, rt: &impl Abort, input: &[u8]);

    /// A step that is undone while every request for memory is refused, or why it is refused.
    fn step_and_undo(
        &mut self,
        rt: &impl Abort,
        memory: Memory<'_>,
        input: &[u8],
    ) -> Option<Refusal>;

    /// What is printed.
    fn printed(&self) -> &[u8];

    /// All that it shows. None if memory was refused.
    fn shown(&self, plain: Global) -> Option<Vec<u8>>;
}

/// A subject that is made with memory of this kind.
pub(crate) trait SubjectOver<A: Allocator + Copy>: Subject {
    /// It is in the state in which a processor begins.
    fn new_one(alloc: A) -> Result<Self, Refusal>;

    /// It is loaded from these parts of a state.
    fn loaded(rt: &impl Abort, alloc: A, parts: &Parts<A>) -> Result<Self, Refusal>;
}

/// What a walk is over.
#[derive(Clone, Copy)]
struct Walk<'a> {
    plain: Global,
    memory: Memory<'a>,
    input: &'a [u8],
}

/// How many requests a call may make at most.
const MOST_REQUESTS: u64 = 1_000;

// The next step over this whole input.
fn step<E: TwoEnds<u8, A>, M: TwoEnds<Mark, A>, A: Allocator + Copy>(
    rt: &impl Abort,
    machine: &mut Core<E, M, A>,
    input: &[u8],
) -> Result<Record<A>, Refusal> {
    assert!(rt; machine.position() <= input.len());
    machine.step(Tape {
        bytes: input,
        ended: true,
    })
}

impl<E: TwoEnds<u8, A>, M: TwoEnds<Mark, A>, A: Allocator + Copy> Subject for Core<E, M, A> {
    fn take_step(&mut self, rt: &impl Abort, input: &[u8]) {
        let _taken = step(rt, self, input).expect(rt, "the step was refused");
    }

    fn step_and_undo(
        &mut self,
        rt: &impl Abort,
        memory: Memory<'_>,
        input: &[u8],
    ) -> Option<Refusal> {
        assert!(rt; self.position() <= input.len());
        let tape = Tape {
            bytes: input,
            ended: true,
        };
        match self.step(tape) {
            Ok(taken) => {
                let requests = memory.requests();
                memory.refuse_all();
                self.undo(taken);
                assert!(rt; memory.requests() == requests);
                None
            }
            Err(refusal) => Some(refusal),
        }
    }

    fn printed(&self) -> &[u8] {
        self.output()
    }

    fn shown(&self, plain: Global) -> Option<Vec<u8>> {
        shown_after(plain, self, b"", 0)
    }
}

impl<E: TwoEnds<u8, A>, M: TwoEnds<Mark, A>, A: Allocator + Copy> SubjectOver<A> for Core<E, M, A> {
    fn new_one(alloc: A) -> Result<Self, Refusal> {
        Core::new(alloc, Width::W128)
    }

    fn loaded(rt: &impl Abort, alloc: A, parts: &Parts<A>) -> Result<Self, Refusal> {
        assert!(rt; parts.each_gathers());
        Core::load(alloc, parts, Width::W128)
    }
}

// The text is this one.
fn expect_text(rt: &impl Abort, text: &[u8], wanted: &[u8]) {
    assert_eq!(rt; text, wanted);
}

/// What a machine shows.
pub(crate) fn shown_by(rt: &impl Abort, plain: Global, machine: &impl Subject) -> Vec<u8> {
    machine.shown(plain).expect(rt, "there was no memory")
}

/// A machine shows this.
pub(crate) fn expect_shown(rt: &impl Abort, plain: Global, machine: &impl Subject, wanted: &[u8]) {
    expect_text(rt, shown_by(rt, plain, machine).as_slice(), wanted);
}

// Tries a step while this request for memory is refused: whether the step is refused or undone, the machine shows the
// same as before. The answer is why the step is refused, and whether a request was.
fn try_request(
    rt: &impl Abort,
    walk: &Walk<'_>,
    machine: &mut impl Subject,
    before: &[u8],
    nth: u64,
) -> (Option<Refusal>, bool) {
    let refusals = walk.memory.refusals();
    walk.memory.refuse_nth(nth);
    let refused = machine.step_and_undo(rt, walk.memory, walk.input);
    walk.memory.accept_all();
    expect_shown(rt, walk.plain, machine, before);
    (refused, walk.memory.refusals() > refusals)
}

// The next step, with each request refused in turn. The answer is why the step is refused with ample memory.
fn try_step(rt: &impl Abort, walk: &Walk<'_>, machine: &mut impl Subject) -> Option<Refusal> {
    let before = shown_by(rt, walk.plain, machine);
    for nth in 1..MOST_REQUESTS {
        let (refused, is_met) = try_request(rt, walk, machine, before.as_slice(), nth);
        if !is_met {
            return refused;
        }
        assert!(rt; refused.is_none() || refused == Some(Refusal::Memory));
    }
    Some(Refusal::Memory)
}

// A whole run, step by step.
fn go_through(rt: &impl Abort, walk: &Walk<'_>, machine: &mut impl Subject) {
    for _ in 0..5_000 {
        if let Some(refusal) = try_step(rt, walk, machine) {
            assert!(rt; refusal == Refusal::Ended);
            return;
        }
        machine.take_step(rt, walk.input);
    }
    panic!(rt; "too few steps");
}

// A whole run on a new machine, with what it prints.
fn expect_run<S: SubjectOver<A>, A: Allocator + Copy>(
    rt: &impl Abort,
    alloc: A,
    walk: &Walk<'_>,
    output: &[u8],
) {
    let mut machine = S::new_one(alloc).expect(rt, "there was no memory");
    go_through(rt, walk, &mut machine);
    expect_text(rt, machine.printed(), output);
}

// A whole run of each program.
fn run_each<S: SubjectOver<A>, A: Allocator + Copy>(
    rt: &(impl Abort + AllocGlobal),
    memory: Memory<'_>,
    alloc: A,
) {
    for (input, output) in programs().iter() {
        let walk = Walk {
            plain: rt.alloc(),
            memory,
            input,
        };
        expect_run::<S, A>(rt, alloc, &walk, output);
    }
}

// A machine on the plain representation.
type Plain<A> = Core<PlainEnds<u8, A>, PlainEnds<Mark, A>, A>;

#[test]
fn the_plain_representation(rt: HostRuntime) {
    let memory = Refusing::new(rt.alloc());
    run_each::<Plain<Memory<'_>>, Memory<'_>>(&rt, &memory, &memory);
}
