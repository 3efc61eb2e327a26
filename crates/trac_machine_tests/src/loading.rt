//! A machine that is loaded from the parts of a state: it shows that state, and each request for memory is refused in
//! turn. Parts that are at a limit are loaded, and parts that pass it are refused.
use crate::Memory;
use crate::machines::{SubjectOver, expect_shown};
use std::alloc::{Allocator, Global};
use std::process::Abort;
use trac_faults::Refusing;
use trac_forms::{Form, Item};
use trac_rules::limit::{BLOCK_LIMIT, MARK_LIMIT, NAME_LIMIT, OUTPUT_LIMIT, TEXT_LIMIT};
use trac_rules::refusal::Refusal;
use trac_step::{Kind, Machine, Parts};

/// A form with its name.
type Named<A> = (Vec<u8, A>, Form<A>);

/// How many requests a call may make at most.
const MOST_REQUESTS: u64 = 1_000;

// The begun functions, with their arguments.
const BEGUN: &[(Kind, &[&[u8]])] = &[
    (Kind::Active, &[b"ds", b"", b"A"]),
    (Kind::Neutral, &[b"cl"]),
];

// Names and texts of forms, of which a later one of the same name replaces an earlier one.
const FORMS: &[(&[u8], &[u8])] = &[(b"A", b"ab"), (b"", b"null"), (b"A", b"c")];

// The same of a block, in which the form that is called `x` stands first.
const HELD: &[(&[u8], &[u8])] = &[(b"x", b"1"), (b"y", b"2"), (b"x", b"3")];

// What the machine shows: texts; how long base text and active text are, and two begun functions, an active one of
// three arguments and a neutral one of one; position, meta character and trace; three forms (`null` under the null
// name, `c` under `A`, and `a`, the pointer, a gap and `b` under `G`); three blocks of which one is erased and one has
// none; and the output. Numbers have eight bytes, and a byte of a form stands after a zero.
const SHOWN: &[u8] = b"bb#(ds,,A##(cl^)#(x\
    \0\0\0\0\0\0\0\x02\0\0\0\0\0\0\0\x04\0\0\0\0\0\0\0\x02\
    \0\0\0\0\0\0\0\0\0\0\0\0\0\0\0\x03\0\0\0\0\0\0\0\x02\0\0\0\0\0\0\0\0\0\0\0\0\0\0\0\x01\
    \0\0\0\0\0\0\0\x01\0\0\0\0\0\0\0\x01\0\0\0\0\0\0\0\x02\
    \0\0\0\0\0\0\0\x07;\x01\
    \0\0\0\0\0\0\0\x03\
    \0\0\0\0\0\0\0\x04\0\0\0\0\0\0\0\0\0n\0u\0l\0l\
    \0\0\0\0\0\0\0\x01\0\0\0\0\0\0\0\0\0c\
    nonenonenonenonenonenone\
    \0\0\0\0\0\0\0\x03\0\0\0\0\0\0\0\x01\0a\0\0\0\0\0\0\0\x01\0\0\0\0\0\0\0\x03\0b\
    nonenone\
    \0\0\0\0\0\0\0\x03\
    \0\0\0\0\0\0\0\x02\
    \0\0\0\0\0\0\0\x01x\0\0\0\0\0\0\0\x01\0\0\0\0\0\0\0\0\x003\
    \0\0\0\0\0\0\0\x01y\0\0\0\0\0\0\0\x01\0\0\0\0\0\0\0\0\x002\
    erased\
    \0\0\0\0\0\0\0\0\
    out";

fn text<A: Allocator + Copy>(rt: &impl Abort, alloc: A, bytes: &[u8]) -> Vec<u8, A> {
    Vec::from_slice(alloc, bytes).expect(rt, "there was no memory")
}

fn texts<A: Allocator + Copy>(rt: &impl Abort, alloc: A, all: &[&[u8]]) -> Vec<Vec<u8, A>, A> {
    let mut out = Vec::new(alloc);
    for bytes in all {
        out.push(text(rt, alloc, bytes))
            .expect(rt, "there was no memory");
    }
    out
}

fn begun<A: Allocator + Copy>(rt: &impl Abort, alloc: A) -> Vec<(Kind, Vec<Vec<u8, A>, A>), A> {
    let mut out = Vec::new(alloc);
    for (kind, arguments) in BEGUN.iter() {
        let gathered = texts(rt, alloc, arguments);
        out.push((*kind, gathered))
            .expect(rt, "there was no memory");
    }
    out
}

fn named<A: Allocator + Copy>(
    rt: &impl Abort,
    alloc: A,
    all: &[(&[u8], &[u8])],
) -> Vec<Named<A>, A> {
    let mut out = Vec::new(alloc);
    for (name, bytes) in all {
        let form = Form::new(alloc, bytes).expect(rt, "there was no memory");
        out.push((text(rt, alloc, name), form))
            .expect(rt, "there was no memory");
    }
    out
}

// A form of a byte, the pointer, a gap and a byte.
fn form_with_a_gap<A: Allocator + Copy>(rt: &impl Abort, alloc: A) -> Form<A> {
    let gap = Item::Gap {
        ordinal: 1,
        width: 3,
    };
    Form::of(alloc, &[Item::Byte(b'a')], &[gap, Item::Byte(b'b')]).expect(rt, "there was no memory")
}

fn forms<A: Allocator + Copy>(rt: &impl Abort, alloc: A) -> Vec<Named<A>, A> {
    let mut out = named(rt, alloc, FORMS);
    let gapped = (text(rt, alloc, b"G"), form_with_a_gap(rt, alloc));
    out.push(gapped).expect(rt, "there was no memory");
    out
}

fn blocks<A: Allocator + Copy>(rt: &impl Abort, alloc: A) -> Vec<Option<Vec<Named<A>, A>>, A> {
    let mut out = Vec::new(alloc);
    for rows in [Some(HELD), None, Some(&[])] {
        let block = match rows {
            Some(held) => Some(named(rt, alloc, held)),
            None => None,
        };
        out.push(block).expect(rt, "there was no memory");
    }
    out
}

// Two begun functions, forms and blocks.
fn rich<A: Allocator + Copy>(rt: &impl Abort, alloc: A) -> Parts<A> {
    Parts {
        active: text(rt, alloc, b")#(x"),
        base: text(rt, alloc, b"bb"),
        frames: begun(rt, alloc),
        forms: forms(rt, alloc),
        blocks: blocks(rt, alloc),
        meta: b';',
        trace: true,
        position: 7,
        output: text(rt, alloc, b"out"),
        text_room: 1_000,
        mark_room: 0,
        output_room: 0,
        names: texts(rt, alloc, &[b"later", b"A"]),
    }
}

// Why no machine is made.
fn unloaded<S: SubjectOver<A>, A: Allocator + Copy>(
    rt: &impl Abort,
    alloc: A,
    parts: &Parts<A>,
) -> Option<Refusal> {
    match S::loaded(rt, alloc, parts) {
        Ok(_machine) => None,
        Err(refusal) => Some(refusal),
    }
}

// Each request for memory is refused in turn: how many runs that takes.
fn refusals_of<S: SubjectOver<A>, A: Allocator + Copy>(
    rt: &impl Abort,
    memory: Memory<'_>,
    alloc: A,
    parts: &Parts<A>,
) -> u64 {
    for nth in 1..MOST_REQUESTS {
        let refusals = memory.refusals();
        memory.refuse_nth(nth);
        let refusal = unloaded::<S, A>(rt, alloc, parts);
        memory.accept_all();
        if memory.refusals() == refusals {
            return nth;
        }
        assert!(rt; refusal == Some(Refusal::Memory));
    }
    MOST_REQUESTS
}

fn expect_rich<S: SubjectOver<A>, A: Allocator + Copy>(
    rt: &(impl Abort + AllocGlobal),
    memory: Memory<'_>,
    alloc: A,
) {
    let parts = rich(rt, alloc);
    let runs = refusals_of::<S, A>(rt, memory, alloc, &parts);
    assert!(rt; 10 < runs && runs < MOST_REQUESTS);
    let machine = S::loaded(rt, alloc, &parts).expect(rt, "the parts were refused");
    expect_shown(rt, rt.alloc(), &machine, SHOWN);
}

#[test]
fn a_rich_state(rt: HostRuntime) {
    let memory = Refusing::new(rt.alloc());
    expect_rich::<Machine<Memory<'_>>, Memory<'_>>(&rt, &memory, &memory);
}

/// A part that has a limit.
#[derive(Clone, Copy, Debug, PartialEq, Eq)]
enum Limited {
    /// Active text, with a byte in an argument.
    Texts,
    /// Finished arguments and the function that has them.
    Marks,
    Output,
    TextRoom,
    MarkRoom,
    OutputRoom,
    /// Erased ones.
    Blocks,
    /// A name to know.
    Name,
}

const LIMITS: &[(Limited, usize)] = &[
    (Limited::Texts, TEXT_LIMIT),
    (Limited::Marks, MARK_LIMIT),
    (Limited::Output, OUTPUT_LIMIT),
    (Limited::TextRoom, TEXT_LIMIT),
    (Limited::MarkRoom, MARK_LIMIT),
    (Limited::OutputRoom, OUTPUT_LIMIT),
    (Limited::Blocks, BLOCK_LIMIT),
];

// A name as long as it may be is left out above: it takes seconds if all memory is watched.
const LONG_NAME: &[(Limited, usize)] = &[(Limited::Name, NAME_LIMIT)];

// The first bytes of a long text.
fn front<A: Allocator + Copy>(rt: &impl Abort, alloc: A, long: &[u8], count: usize) -> Vec<u8, A> {
    text(rt, alloc, long.split_at(count.min(long.len())).0)
}

// A begun function of so many null arguments and one of a byte.
fn with_arguments<A: Allocator + Copy>(
    rt: &impl Abort,
    alloc: A,
    count: usize,
) -> Vec<(Kind, Vec<Vec<u8, A>, A>), A> {
    let mut arguments = Vec::new(alloc);
    for _ in 0..count {
        arguments
            .push(Vec::new(alloc))
            .expect(rt, "there was no memory");
    }
    arguments
        .push(text(rt, alloc, b"a"))
        .expect(rt, "there was no memory");
    let mut out = Vec::new(alloc);
    out.push((Kind::Active, arguments))
        .expect(rt, "there was no memory");
    out
}

// So many blocks that are erased.
fn erased<A: Allocator + Copy>(
    rt: &impl Abort,
    alloc: A,
    count: usize,
) -> Vec<Option<Vec<Named<A>, A>>, A> {
    let mut out = Vec::new(alloc);
    for _ in 0..count {
        out.push(None).expect(rt, "there was no memory");
    }
    out
}

// The count if it is of this part, and else none.
fn count_of(part: Limited, (limited, count): (Limited, usize)) -> usize {
    if part == limited { count } else { 0 }
}

// The parts of a state in which there is so much of what has a limit, and else hardly anything.
fn parts_at<A: Allocator + Copy>(
    rt: &impl Abort,
    alloc: A,
    long: &[u8],
    limited: (Limited, usize),
) -> Parts<A> {
    let texts = count_of(Limited::Texts, limited).saturating_sub(1);
    let arguments = count_of(Limited::Marks, limited).saturating_sub(1);
    let name = count_of(Limited::Name, limited);
    Parts {
        active: front(rt, alloc, long, texts),
        base: Vec::new(alloc),
        frames: with_arguments(rt, alloc, arguments),
        forms: Vec::new(alloc),
        blocks: erased(rt, alloc, count_of(Limited::Blocks, limited)),
        meta: b'\'',
        trace: false,
        position: 0,
        output: front(rt, alloc, long, count_of(Limited::Output, limited)),
        text_room: count_of(Limited::TextRoom, limited),
        mark_room: count_of(Limited::MarkRoom, limited),
        output_room: count_of(Limited::OutputRoom, limited),
        names: texts_of(rt, alloc, long, name),
    }
}

// One text, of the first bytes of a long one.
fn texts_of<A: Allocator + Copy>(
    rt: &impl Abort,
    alloc: A,
    long: &[u8],
    count: usize,
) -> Vec<Vec<u8, A>, A> {
    texts(rt, alloc, &[long.split_at(count.min(long.len())).0])
}

// Parts at these limits are loaded, and parts that pass them by one are refused.
fn expect_limits<S: SubjectOver<A>, A: Allocator + Copy>(
    rt: &impl Abort,
    alloc: A,
    long: &[u8],
    limits: &[(Limited, usize)],
    more: usize,
) {
    let wanted = if more > 0 {
        Some(Refusal::TooLong)
    } else {
        None
    };
    for (limited, limit) in limits {
        let at = (*limited, limit.saturating_add(more));
        let refusal = unloaded::<S, A>(rt, alloc, &parts_at(rt, alloc, long, at));
        assert!(rt; refusal == wanted, "{limited:?}");
    }
}

fn expect_all_limits<S: SubjectOver<A>, A: Allocator + Copy>(
    rt: &impl Abort,
    alloc: A,
    long: &[u8],
) {
    expect_limits::<S, A>(rt, alloc, long, LIMITS, 0);
    expect_limits::<S, A>(rt, alloc, long, LIMITS, 1);
    expect_limits::<S, A>(rt, alloc, long, LONG_NAME, 1);
}

#[test]
fn limits_of_parts(rt: HostRuntime) {
    // no text or name may be as long
    let long = vec![in rt.alloc(); b'a'; 16_777_217].expect(&rt, "there was no memory");
    expect_all_limits::<Machine, Global>(&rt, rt.alloc(), long.as_slice());
}
