//! Lists with two ends, of both types that there are: worked calls, and copies, of which each request for memory is
//! refused in turn. What any call leaves in the lists is in its contract.
use crate::Memory;
use std::alloc::{Allocator, Global};
use std::process::Abort;
use trac_faults::Refusing;
use trac_gap::{GapBuf, PlainEnds, TwoEnds};

// Puts `abc` on the left and `d` on the right. If room for them is refused, the next try is accepted.
fn fill<E: TwoEnds<u8, A>, A: Allocator + Copy>(rt: &impl Abort, ends: &mut E) {
    if ends.reserve(4).is_err() {
        ends.reserve(4).expect(rt, "it was refused again");
    }
    assert!(rt; ends.room() >= 4);
    ends.put_left(b"abc");
    ends.put_right(b"d");
}

// A copy. If that is refused, the next try is accepted.
fn copied<E: TwoEnds<u8, A>, A: Allocator + Copy>(rt: &impl Abort, ends: &E) -> E {
    let Ok(copy) = ends.copy() else {
        return ends.copy().expect(rt, "it was refused again");
    };
    copy
}

fn holds<E: TwoEnds<u8, A>, A: Allocator + Copy>(ends: &E, left: &[u8], right: &[u8]) -> bool {
    ends.left() == left && ends.right() == right
}

// The lists are these. The copy has items of its own, which are taken out.
fn expect_copy<E: TwoEnds<u8, A>, A: Allocator + Copy>(rt: &impl Abort, ends: &E) {
    let mut copy = copied(rt, ends);
    let items = (copy.pop_left(), copy.pop_right());
    assert!(rt; items == (Some(b'c'), Some(b'd')));
    assert!(rt; holds(&copy, b"ab", b"") && holds(ends, b"abc", b"d"));
}

// The same again and again, with one more request accepted before the refused one each time, until none is refused.
fn expect_each_request<E: TwoEnds<u8, A>, A: Allocator + Copy>(
    rt: &impl Abort,
    memory: Memory<'_>,
    alloc: A,
) {
    for nth in 1..100 {
        let refusals = memory.refusals();
        memory.refuse_nth(nth);
        let mut ends = E::new(alloc);
        fill(rt, &mut ends);
        expect_copy(rt, &ends);
        memory.accept_all();
        if memory.refusals() == refusals {
            assert!(rt; nth > 2, "{nth} runs");
            return;
        }
    }
    panic!(rt; "too few runs");
}

/// A call on two lists.
#[derive(Clone, Copy)]
enum Call {
    PutLeft(&'static [u8]),
    PutRight(&'static [u8]),
    PushRight(u8),
    /// Items go before the list on the right until one place is left: each is the number of places before it.
    FillRight,
    /// What is taken.
    PopLeft(Option<u8>),
    CutLeft(usize),
    CutRight(usize),
    ShiftLeft(usize),
    ShiftRight(usize),
}

/// Calls, and the two lists after them.
type Line = (&'static [Call], &'static [u8], &'static [u8]);

// One after another on lists that have room for four.
const LINES: &[Line] = &[
    (&[Call::PutLeft(b"ab"), Call::PutRight(b"cd")], b"ab", b"cd"),
    (&[Call::ShiftLeft(1)], b"abc", b"d"),
    (&[Call::ShiftRight(2)], b"a", b"bcd"),
    (&[Call::CutRight(1)], b"a", b"cd"),
    (
        &[Call::PopLeft(Some(b'a')), Call::PushRight(b'x')],
        b"",
        b"xcd",
    ),
    (
        &[Call::PopLeft(None), Call::ShiftLeft(3), Call::CutLeft(3)],
        b"",
        b"",
    ),
];

// On lists that have room for sixteen. Of the list on the right, which takes what room there is, these are the first
// items: more are moved across the gap than it has places, and moved back.
const FAR_LINES: &[Line] = &[
    (
        &[Call::PutLeft(b"abcdefgh"), Call::FillRight],
        b"abcdefgh",
        b"\x02\x03\x04\x05\x06\x07\x08",
    ),
    (
        &[Call::ShiftRight(7)],
        b"a",
        b"bcdefgh\x02\x03\x04\x05\x06\x07\x08",
    ),
    (
        &[Call::ShiftLeft(7)],
        b"abcdefgh",
        b"\x02\x03\x04\x05\x06\x07\x08",
    ),
];

fn push_right<E: TwoEnds<u8, A>, A: Allocator + Copy>(rt: &impl Abort, ends: &mut E, byte: u8) {
    assert!(rt; 1 <= ends.room());
    ends.push_right(byte);
}

fn fill_right<E: TwoEnds<u8, A>, A: Allocator + Copy>(rt: &impl Abort, ends: &mut E) {
    for _ in 1..ends.room() {
        push_right(rt, ends, (ends.room() % 251) as u8);
    }
    assert!(rt; ends.room() == 1);
}

// Carries out a call that needs room on lists that have it.
fn put<E: TwoEnds<u8, A>, A: Allocator + Copy>(rt: &impl Abort, ends: &mut E, call: &Call) {
    match *call {
        Call::PutLeft(bytes) => {
            assert!(rt; bytes.len() <= ends.room());
            ends.put_left(bytes);
        }
        Call::PutRight(bytes) => {
            assert!(rt; bytes.len() <= ends.room());
            ends.put_right(bytes);
        }
        Call::PushRight(byte) => push_right(rt, ends, byte),
        Call::FillRight => fill_right(rt, ends),
        _ => {}
    }
}

// Carries out a call that takes items from a list: so many, or all.
fn take<E: TwoEnds<u8, A>, A: Allocator + Copy>(rt: &impl Abort, ends: &mut E, call: &Call) {
    match *call {
        Call::PopLeft(item) => assert!(rt; ends.pop_left() == item),
        Call::CutLeft(n) => ends.cut_left(n.min(ends.left().len())),
        Call::CutRight(n) => ends.cut_right(n.min(ends.right().len())),
        Call::ShiftLeft(n) => ends.shift_left(n.min(ends.right().len())),
        Call::ShiftRight(n) => ends.shift_right(n.min(ends.left().len())),
        _ => {}
    }
}

// New lists with room for so many items.
fn with_room<E: TwoEnds<u8, A>, A: Allocator + Copy>(rt: &impl Abort, alloc: A, count: usize) -> E {
    let mut ends = E::new(alloc);
    ends.reserve(count).expect(rt, "there was no memory");
    ends
}

// The list on the left is this one, and that on the right begins so, or is this one if no room is left for more. These
// are the lists of a copy.
fn expect_both<E: TwoEnds<u8, A>, A: Allocator + Copy>(
    rt: &impl Abort,
    ends: &E,
    (left, right): (&[u8], &[u8]),
) {
    let copy = copied(rt, ends);
    assert!(rt; holds(&copy, ends.left(), ends.right()));
    assert!(rt; ends.left() == left && ends.right().starts_with(right));
    assert!(rt; ends.right().len() == right.len() || ends.room() == 1);
}

fn expect_lines<E: TwoEnds<u8, A>, A: Allocator + Copy>(
    rt: &impl Abort,
    alloc: A,
    room: usize,
    lines: &[Line],
) {
    let mut ends: E = with_room(rt, alloc, room);
    for (calls, left, right) in lines {
        for call in calls.iter() {
            put(rt, &mut ends, call);
            take(rt, &mut ends, call);
        }
        expect_both(rt, &ends, (*left, *right));
    }
}

fn expect_calls<E: TwoEnds<u8, A>, A: Allocator + Copy>(rt: &impl Abort, alloc: A) {
    expect_lines::<E, A>(rt, alloc, 4, LINES);
    expect_lines::<E, A>(rt, alloc, 16, FAR_LINES);
}

#[test]
fn worked_calls(rt: HostRuntime) {
    expect_calls::<PlainEnds<u8>, Global>(&rt, rt.alloc());
    expect_calls::<GapBuf<u8>, Global>(&rt, rt.alloc());
}

#[test]
fn each_request_of_a_copy(rt: HostRuntime) {
    let memory = Refusing::new(rt.alloc());
    expect_each_request::<PlainEnds<u8, Memory<'_>>, Memory<'_>>(&rt, &memory, &memory);
    expect_each_request::<GapBuf<u8, Memory<'_>>, Memory<'_>>(&rt, &memory, &memory);
}
