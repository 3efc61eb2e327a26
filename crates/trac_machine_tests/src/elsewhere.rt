//! The way back on another machine: one takes steps, and another, loaded from what the first one
//! then shows, goes back over them.
ghost use Rattle.std.specs.Prelude.{◌≡◌, IfOk, IsSomeAnd, Ok, Some};
ghost use Rattle.trac_machine_tests.specs.Walks.{IsLoaded, LeadsTo, begun_with, over_whole};
ghost use Rattle.trac_rules.specs.State.{initial};
ghost use Rattle.trac_rules.specs.Stepping.{step};
ghost use Rattle.trac_step.specs.Layout.{Shown};
ghost use Rattle.trac_step.specs.Record.{before};
ghost use Rattle.trac_step.specs.Room.{HasRoom, IsNoLess};
ghost use Rattle.trac_rules.specs.declared.width.Width.TheVariants.{W128};

use crate::Memory;
use crate::machines::{expect_shown, shown_by};
use std::alloc::{Allocator, Global};
use std::process::Abort;
use trac_faults::Refusing;
use trac_gap::{GapBuf, TwoEnds};
use trac_rules::refusal::Refusal;
use trac_rules::width::Width;
use trac_step::{Core, Mark, Parts, Record, Tape};

/// What a walk is over.
#[derive(Clone, Copy)]
struct Walk<'a> {
    plain: Global,
    memory: Memory<'a>,
    input: &'a [u8],
    // the numbers of the steps during which every request for memory is refused
    scarce: &'a [u64],
}

// Whether the number is among these.
fn is_among(numbers: &[u64], number: u64) -> bool {
    for it in numbers {
        if *it == number {
            return true;
        }
    }
    false
}

/// What a machine shows after a walk, all else being as at the start: its active text, its output, and how many bytes
/// are read; and the room for texts, marks and output with which it is loaded.
#[derive(Clone, Copy)]
struct After {
    active: &'static [u8],
    output: &'static [u8],
    position: usize,
    text_room: usize,
    mark_room: usize,
    output_room: usize,
}

// Takes a step. If the walk says so, every request for memory is refused meanwhile.
fn take_step<E: TwoEnds<u8, A>, M: TwoEnds<Mark, A>, A: Allocator + Copy>(
    rt: &impl Abort,
    walk: &Walk<'_>,
    machine: &mut Core<E, M, A>,
    number: u64,
) -> Record<A>
    requires { machine.old.width ≡ W128 }
    ensures width { machine.new.width ≡ W128 }
    ensures taken { step (over_whole walk.now.input.now) machine.old.state ≡ Ok machine.new.state }
    ensures back { before result machine.new.state ≡ Some machine.old.state }
{
    if is_among(walk.scarce, number) {
        walk.memory.refuse_all();
    }
    assert!(rt; machine.position() <= walk.input.len());
    let taken = machine.step(Tape {
        bytes: walk.input,
        ended: true,
    });
    walk.memory.accept_all();
    taken.expect(rt, "the step was refused")
}

// Goes back over a step while every request for memory is refused. None is made.
fn go_back<E: TwoEnds<u8, A>, M: TwoEnds<Mark, A>, A: Allocator + Copy>(
    rt: &impl Abort,
    walk: &Walk<'_>,
    machine: &mut Core<E, M, A>,
    taken: Record<A>,
)
    requires { IsSomeAnd (before taken machine.old.state) (λ s. HasRoom machine.old s) }
    ensures state { before taken machine.old.state ≡ Some machine.new.state }
    ensures room { IsNoLess machine.old machine.new }
{
    walk.memory.refuse_all();
    let requests = walk.memory.requests();
    machine.undo(taken);
    assert!(rt; walk.memory.requests() == requests);
    walk.memory.accept_all();
}

// One machine takes so many steps, and the other one goes back over all of them by the records that the first one gave.
fn back_on_another<E: TwoEnds<u8, A>, M: TwoEnds<Mark, A>, A: Allocator + Copy>(
    rt: &impl Abort,
    walk: &Walk<'_>,
    machine: &mut Core<E, M, A>,
    other: &mut Core<E, M, A>,
    done: u64,
    left: u64,
)
    requires width { machine.old.width ≡ W128 }
    requires leads { LeadsTo (over_whole walk.now.input.now) left machine.old.state other.old }
    ensures state { other.new.state ≡ machine.old.state }
    ensures room { IsNoLess other.old other.new }
{
    let wanted = shown_by(rt, walk.plain, machine);
    let Some(rest) = left.checked_sub(1) else {
        expect_shown(rt, walk.plain, other, wanted.as_slice());
        return;
    };
    let number = done.saturating_add(1);
    let taken = take_step(rt, walk, machine, number);
    back_on_another(rt, walk, machine, other, number, rest);
    go_back(rt, walk, other, taken);
    expect_shown(rt, walk.plain, other, wanted.as_slice());
}

// A machine that is loaded from the parts of the state after a walk.
fn loaded_after<E: TwoEnds<u8, A>, M: TwoEnds<Mark, A>, A: Allocator + Copy>(
    rt: &impl Abort,
    alloc: A,
    after: After,
) -> Result<Core<E, M, A>, Refusal>
    ensures { IfOk result (IsLoaded (begun_with after.active.now after.output.now after.position) after.text_room
        after.mark_room after.output_room) }
{
    let parts = Parts {
        active: Vec::from_slice(alloc, after.active).expect(rt, "there was no memory"),
        base: Vec::new(alloc),
        frames: Vec::new(alloc),
        forms: Vec::new(alloc),
        blocks: Vec::new(alloc),
        meta: b'\'',
        trace: false,
        position: after.position,
        output: Vec::from_slice(alloc, after.output).expect(rt, "there was no memory"),
        text_room: after.text_room,
        mark_room: after.mark_room,
        output_room: after.output_room,
        names: Vec::new(alloc),
    };
    assert!(rt; parts.each_gathers());
    Core::load(alloc, &parts, Width::W128)
}

// Lets a machine go. A function that owns one ends with this call, since its own proof would else carry all that is
// freed.
fn let_go<E: TwoEnds<u8, A>, M: TwoEnds<Mark, A>, A: Allocator + Copy>(machine: Core<E, M, A>) {
    let _last = machine;
}

// A machine that is loaded from the parts of the state after a walk goes back over that walk.
fn expect_back<E: TwoEnds<u8, A>, M: TwoEnds<Mark, A>, A: Allocator + Copy>(
    rt: &impl Abort,
    alloc: A,
    walk: &Walk<'_>,
    after: After,
    steps: u64,
)
    requires { (m : Shown) → IsLoaded (begun_with after.active.now after.output.now after.position) after.text_room
        after.mark_room after.output_room m → LeadsTo (over_whole walk.now.input.now) steps initial m }
{
    let mut machine: Core<E, M, A> = Core::new(alloc, Width::W128).expect(
        rt,
        "there was no memory",
    );
    let mut other = loaded_after(rt, alloc, after).expect(rt, "the parts were refused");
    back_on_another(rt, walk, &mut machine, &mut other, 0, steps);
    let_go(machine);
    let_go(other);
}

#[test]
fn eleven_steps_back_on_a_loaded_machine(rt: HostRuntime) {
    let after = After {
        active: b"",
        output: b"AB",
        position: 3,
        text_room: 11,
        mark_room: 3,
        output_room: 2,
    };
    let memory = Refusing::new(rt.alloc());
    let walk = Walk {
        plain: rt.alloc(),
        memory: &memory,
        input: b"AB'",
        // these only move, on a machine that has had a mark
        scarce: &[2, 3, 6, 7, 9, 10],
    };
    expect_back::<GapBuf<u8, Memory<'_>>, GapBuf<Mark, Memory<'_>>, Memory<'_>>(
        &rt, &memory, &walk, after, 11,
    );
}
