//! What single calls answer: the records of steps and what they weigh, and what calls will do, on a machine of any
//! representation.
ghost use Rattle.std.specs.Prelude.{◌^◌, ◌<◌};
ghost use Rattle.trac_rules.specs.Proper.{IsProper};
ghost use Rattle.trac_rules.specs.Weights.{weight};
ghost use Rattle.trac_step.specs.Record.{recorded_by};

use crate::machines::SubjectOver;
use std::alloc::{Allocator, Global};
use std::process::Abort;
use trac_gap::TwoEnds;
use trac_prims::{Change, Effect, Now, plan};
use trac_rules::limit::{MARK_LIMIT, OUTPUT_LIMIT};
use trac_rules::width::Width;
use trac_step::{Core, Machine, Mark, Record, Tape};

// What these tests ask a machine over memory of this kind. Helpers are over any type of this kind, as in `machines`.
trait Asked<A: Allocator + Copy>: SubjectOver<A> {
    // The next step over this input, which has not ended. Its record is let go.
    fn go_on(&mut self, rt: &impl Abort, input: &[u8]);

    // Whether the next step is an idle one that empties this text alone.
    fn goes_on_idly(&mut self, rt: &impl Abort, input: &[u8], wanted: &[u8]) -> bool;

    // Takes two steps: what the record of the second weighs.
    fn second_weight(&mut self, rt: &impl Abort, input: &[u8]) -> usize;

    // Whether the call that comes next over this input will do this; with it whether calls are printed.
    fn next_does(&self, rt: &impl Abort, alloc: A, call: (&[u8], bool), wanted: &Wanted) -> bool;
}

impl<E: TwoEnds<u8, A>, M: TwoEnds<Mark, A>, A: Allocator + Copy> Asked<A> for Core<E, M, A> {
    fn go_on(&mut self, rt: &impl Abort, input: &[u8]) {
        take_step(rt, self, input);
    }

    fn goes_on_idly(&mut self, rt: &impl Abort, input: &[u8], wanted: &[u8]) -> bool {
        is_idle(&next(rt, self, input), wanted)
    }

    fn second_weight(&mut self, rt: &impl Abort, input: &[u8]) -> usize {
        take_step(rt, self, input);
        next(rt, self, input).weight()
    }

    fn next_does(&self, rt: &impl Abort, alloc: A, call: (&[u8], bool), wanted: &Wanted) -> bool {
        does(&planned(rt, alloc, self, call), wanted)
    }
}

// Takes the next step over this input, which has not ended. The state after it is within all limits, as it always is,
// so the record of the one after that weighs no more than fits.
fn next<E: TwoEnds<u8, A>, M: TwoEnds<Mark, A>, A: Allocator + Copy>(
    rt: &impl Abort,
    machine: &mut Core<E, M, A>,
    input: &[u8],
) -> Record<A>
    ensures proper { IsProper machine.new.state }
    ensures weighs { IsProper machine.old.state → weight (recorded_by result) < 2 ^ 64 }
{
    assert!(rt; machine.position() <= input.len());
    let tape = Tape {
        bytes: input,
        ended: false,
    };
    machine.step(tape).expect(rt, "the step was refused")
}

// Takes one step, whose record is let go.
fn take_step<E: TwoEnds<u8, A>, M: TwoEnds<Mark, A>, A: Allocator + Copy>(
    rt: &impl Abort,
    machine: &mut Core<E, M, A>,
    input: &[u8],
)
    ensures { IsProper machine.new.state }
{
    let _taken = next(rt, machine, input);
}

// A machine after so many steps over this input.
fn machine_after<S: Asked<A>, A: Allocator + Copy>(
    rt: &impl Abort,
    alloc: A,
    input: &[u8],
    count: u64,
) -> S {
    let mut machine = S::new_one(alloc).expect(rt, "there was no memory");
    for _ in 0..count {
        machine.go_on(rt, input);
    }
    machine
}

// Whether a record is that of an idle step which empties this text, and no begun functions.
fn is_idle<A: Allocator + Copy>(taken: &Record<A>, wanted: &[u8]) -> bool {
    match taken {
        Record::Idle { base, frames } => base.as_slice() == wanted && frames.is_empty(),
        _ => false,
    }
}

// Inputs, the number of an idle step, and the base text that it empties. The `ps` of the idle program has ended by
// then; a stray `)` ends it early, so that `b` and `c` are base text.
const IDLE_STEPS: &[(&[u8], u64, &[u8])] = &[(b"AB'", 12, b""), (b"a)b,c'", 15, b"bc")];

fn expect_idle<S: Asked<A>, A: Allocator + Copy>(
    rt: &impl Abort,
    alloc: A,
    input: &[u8],
    number: u64,
    wanted: &[u8],
) {
    let mut machine: S = machine_after(rt, alloc, input, number.saturating_sub(1));
    let is_met = machine.goes_on_idly(rt, input, wanted);
    assert!(rt; is_met, "step {number} of {input:?}");
}

// Inputs, the number of a step, and what its record weighs: of a byte that moves nothing, of a deleted one 1, of the
// base text that an idle step empties its bytes, and of a call the bytes of its arguments with one for each comma, for
// a meta character that it sets, for a gap that it makes, and for the form that it deletes its name, its byte and one.
const WEIGHTS: &[(&[u8], u64, usize)] = &[
    (b"AB'", 8, 2),
    (b"AB'", 9, 0),
    (b"AB'", 11, 5),
    (b"a)b,c'", 12, 1),
    (b"a)b,c'", 15, 2),
    (b"#(cm,;)'", 14, 5),
    (b"#(ds,F,x)#(ss,F,x)'", 24, 7),
    (b"#(ds,a,1)'#(dd,a)'", 32, 7),
];

// The record of the step of this number weighs so much.
fn expect_weight<S: Asked<A>, A: Allocator + Copy>(
    rt: &impl Abort,
    alloc: A,
    input: &[u8],
    number: u64,
    wanted: usize,
) {
    let mut machine: S = machine_after(rt, alloc, input, number.saturating_sub(2));
    let weight = machine.second_weight(rt, input);
    assert!(rt;
        weight == wanted,
        "step {number} of {input:?} weighs {weight}"
    );
}

/// What a call will do, which keeps all forms and blocks.
struct Wanted {
    value: &'static [u8],
    forced: bool,
    print: &'static [u8],
    position: usize,
    meta: u8,
    trace: bool,
}

// Inputs, after how many steps their call comes next, whether calls are printed by then, and what the call will do.
const PLANS: &[(&[u8], u64, bool, Wanted)] = &[
    (
        b"##(ad,5-,3)'",
        16,
        true,
        Wanted {
            value: b"5-3",
            forced: false,
            print: b"##(ad*5-*3)\n",
            position: 12,
            meta: b'\'',
            trace: true,
        },
    ),
    (
        b"##(dv,1,0,none)'",
        20,
        false,
        Wanted {
            value: b"none",
            forced: true,
            print: b"",
            position: 16,
            meta: b'\'',
            trace: false,
        },
    ),
    (
        b"#(rs)'x'",
        11,
        false,
        Wanted {
            value: b"x",
            forced: false,
            print: b"",
            position: 8,
            meta: b'\'',
            trace: false,
        },
    ),
    (
        b"#(cm,;)'",
        13,
        false,
        Wanted {
            value: b"",
            forced: false,
            print: b"",
            position: 8,
            meta: b';',
            trace: false,
        },
    ),
];

// What the call that comes next will do. Beside the call there are three bytes of text: `ps` and the `)` that ends it.
fn planned<E: TwoEnds<u8, A>, M: TwoEnds<Mark, A>, A: Allocator + Copy>(
    rt: &impl Abort,
    alloc: A,
    machine: &Core<E, M, A>,
    (input, trace): (&[u8], bool),
) -> Effect<A> {
    let now = Now {
        position: machine.position(),
        output: machine.output().len(),
        text: 3,
        meta: machine.meta(),
        trace,
        width: Width::W128,
    };
    let tape = Tape {
        bytes: input,
        ended: true,
    };
    let (kind, arguments) = machine.next_call().expect(rt, "no call comes next");
    assert!(rt; now.position <= input.len() && now.output <= OUTPUT_LIMIT);
    assert!(rt; arguments.count() <= MARK_LIMIT);
    plan(alloc, &arguments, kind, machine.store(), tape, now).expect(rt, "the call was refused")
}

fn does<A: Allocator + Copy>(effect: &Effect<A>, wanted: &Wanted) -> bool {
    effect.value.as_slice() == wanted.value
        && effect.forced == wanted.forced
        && effect.print.as_slice() == wanted.print
        && effect.position == wanted.position
        && effect.meta == wanted.meta
        && effect.trace == wanted.trace
        && matches!(effect.change, Change::Keep)
}

fn expect_planned<S: Asked<A>, A: Allocator + Copy>(
    rt: &impl Abort,
    alloc: A,
    (input, steps, trace): (&[u8], u64, bool),
    wanted: &Wanted,
) {
    let machine: S = machine_after(rt, alloc, input, steps);
    let is_met = machine.next_does(rt, alloc, (input, trace), wanted);
    assert!(rt; is_met, "{input:?}");
}

fn expect_answers<S: Asked<A>, A: Allocator + Copy>(rt: &impl Abort, alloc: A) {
    for (input, number, wanted) in IDLE_STEPS.iter() {
        expect_idle::<S, A>(rt, alloc, input, *number, wanted);
    }
    for (input, number, wanted) in WEIGHTS.iter() {
        expect_weight::<S, A>(rt, alloc, input, *number, *wanted);
    }
    for (input, steps, trace, wanted) in PLANS.iter() {
        expect_planned::<S, A>(rt, alloc, (*input, *steps, *trace), wanted);
    }
}

#[test]
fn records_and_plans(rt: HostRuntime) {
    expect_answers::<Machine, Global>(&rt, rt.alloc());
}
