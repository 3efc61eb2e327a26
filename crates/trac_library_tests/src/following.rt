//! Following bytes back: one by a way that was worked out by hand, from call to call and in one trace, and those of an
//! output with no request for memory but at a call of `ln`. A trace also requests some for the names of forms.
use std::alloc::{AllocError, Allocator, Global};
use std::process::Abort;
use trac_faults::Refusing;
use trac_follow::{End, Followed, Place, Source, Traced, Witness, follow, trace};
use trac_machine_tests::EACH_PRIMITIVE;
use trac_rules::refusal::Refusal;
use trac_rules::width::Width;
use trac_session::{Machine, Session};

type Memory<'a> = &'a Refusing<Global>;

// What these tests tell a session. Helpers are over any type of this kind, so that their proofs do not carry what a
// session is.
trait Subject: Sized + Drop {
    // All of the input, which ends then.
    fn add_input(&mut self, input: &[&[u8]]) -> Result<(), Refusal>;

    fn go_forward(&mut self, steps: u64) -> Option<Refusal>;

    fn follow_back(&mut self, place: Place<'static>) -> Followed<'static>;

    // Whether there is a call that comes next, and this is its argument of this number.
    fn is_next(&self, argument: usize, text: &[u8]) -> bool;
}

// A subject over memory of this kind.
trait SubjectOver<A: Allocator + Copy>: Subject {
    fn made(alloc: A) -> Result<Self, Refusal>;

    // Follows a byte of the output.
    fn trace_back(&mut self, alloc: A, byte: usize, told: &mut Told) -> Traced;
}

impl<A: Allocator + Copy> Subject for Session<A> {
    fn add_input(&mut self, input: &[&[u8]]) -> Result<(), Refusal> {
        for part in input {
            self.feed(part)?;
        }
        self.end();
        Ok(())
    }

    fn go_forward(&mut self, steps: u64) -> Option<Refusal> {
        self.forward(steps).why
    }

    fn follow_back(&mut self, place: Place<'static>) -> Followed<'static> {
        follow(self, place, u64::MAX)
    }

    fn is_next(&self, argument: usize, text: &[u8]) -> bool {
        match self.machine().next_call() {
            Some((_kind, arguments)) => arguments.get(argument) == text,
            None => false,
        }
    }
}

impl<A: Allocator + Copy> SubjectOver<A> for Session<A> {
    fn made(alloc: A) -> Result<Self, Refusal> {
        Session::new(alloc, 65_536, Width::W128)
    }

    fn trace_back(&mut self, alloc: A, byte: usize, told: &mut Told) -> Traced {
        trace(alloc, self, Place::Output(byte), u64::MAX, told)
    }
}

// Feeds all of the input, and goes forward to its end, which is far fewer steps away.
fn go_to_end(rt: &impl Abort, session: &mut impl Subject, input: &[&[u8]]) {
    session.add_input(input).expect(rt, "it was refused");
    expect_end(rt, session);
}

fn expect_end(rt: &impl Abort, session: &mut impl Subject) {
    assert!(rt; session.go_forward(60_000) == Some(Refusal::Ended));
}

// The form that the call which comes next names by its argument 1, of the two that the programs have longest.
fn form_called(session: &impl Subject) -> &'static [u8] {
    if session.is_next(1, b"B") { b"B" } else { b"A" }
}

// Where the byte is followed on from, if a call passed it on or had it from a form.
fn place_before(session: &impl Subject, source: Source<'static>) -> Option<Place<'static>> {
    match source {
        Source::Passed(there) => Some(there),
        Source::OfForm(item) => Some(Place::Form(form_called(session), item)),
        _ => None,
    }
}

// Whether the call that comes next lists the names of forms.
fn lists_names(session: &impl Subject) -> bool {
    session.is_next(0, b"ln")
}

// Follows what stands at a place back, while every request is refused. None is made, but one at a call of `ln`. That is
// told, and with memory the next try succeeds.
fn followed_refused(
    rt: &impl Abort,
    memory: Memory<'_>,
    session: &mut impl Subject,
    here: Place<'static>,
) -> Source<'static> {
    let requests = memory.requests();
    memory.refuse_all();
    let found = session.follow_back(here);
    memory.accept_all();
    let refused = memory.requests().saturating_sub(requests);
    let Source::Memory = found.source else {
        assert!(rt; refused == 0);
        return found.source;
    };
    assert!(rt; refused == 1 && lists_names(session));
    assert!(rt; session.go_forward(found.steps).is_none());
    let again = session.follow_back(here);
    assert!(rt; again.steps == found.steps && lists_names(session));
    again.source
}

// Follows a byte of the output back so, through calls, forms and blocks.
fn follow_refused(rt: &impl Abort, memory: Memory<'_>, session: &mut impl Subject, byte: usize) {
    let mut place = Some(Place::Output(byte));
    for _turn in 0..8 {
        if let Some(here) = place {
            let source = followed_refused(rt, memory, session, here);
            assert!(rt; !matches!(source, Source::Memory), "byte {byte}");
            place = place_before(session, source);
        }
    }
}

fn follow_each<'a, S: SubjectOver<Memory<'a>>>(rt: &impl Abort, memory: Memory<'a>) {
    let mut session = S::made(memory).expect(rt, "it was refused");
    session
        .add_input(&[EACH_PRIMITIVE.0])
        .expect(rt, "it was refused");
    for byte in 0..EACH_PRIMITIVE.1.len() {
        expect_end(rt, &mut session);
        follow_refused(rt, memory, &mut session, byte);
    }
}

// Byte 7 is the `x`. It becomes the form A, goes with it into a block, comes back, and is called and printed. The `ps`
// of the idle program is function 0 all the while, and each call of the program function 1.
const PROGRAM: &[u8] = b"#(ds,A,x)#(sb,B,A)#(fb,B)#(ps,##(cl,A))'";

// The way of the byte that it prints, the latest first: how many steps were gone back over, and what was found. There
// are 50 steps before the input ends: 8 that read the program, then 8, 8 and 6 up to `ds`, `sb` and `fb` and with
// these, 10 with `cl`, 1 that prints, and 9 up to the next `rs`.
const WAY: &[(u64, Source<'static>)] = &[
    (
        10,
        Source::Passed(Place::Argument {
            function: 1,
            argument: 1,
            byte: 0,
        }),
    ),
    (1, Source::OfForm(0)),
    (10, Source::Passed(Place::Held(0, b"A", 0))),
    (6, Source::Passed(Place::Form(b"A", 0))),
    (
        8,
        Source::Passed(Place::Argument {
            function: 1,
            argument: 2,
            byte: 0,
        }),
    ),
    (8, Source::Read(7)),
];

fn is_same_place(one: Place<'_>, other: Place<'_>) -> bool {
    match (one, other) {
        (
            Place::Argument {
                function: f,
                argument: a,
                byte: i,
            },
            Place::Argument {
                function,
                argument,
                byte,
            },
        ) => (f, a, i) == (function, argument, byte),
        (Place::Form(a, i), Place::Form(b, j)) => a == b && i == j,
        (Place::Held(n, a, i), Place::Held(m, b, j)) => n == m && a == b && i == j,
        _ => false,
    }
}

fn is_same(one: Source<'_>, other: Source<'_>) -> bool {
    match (one, other) {
        (Source::Passed(a), Source::Passed(b)) => is_same_place(a, b),
        (Source::OfForm(i), Source::OfForm(j)) => i == j,
        (Source::Read(i), Source::Read(j)) => i == j,
        _ => false,
    }
}

fn expect_way(rt: &impl Abort, session: &mut impl Subject) {
    let mut place = Some(Place::Output(0));
    for (steps, source) in WAY.iter() {
        if let Some(here) = place {
            let found = session.follow_back(here);
            assert!(rt;
                found.steps == *steps && is_same(found.source, *source),
                "{steps}"
            );
            place = place_before(session, found.source);
        }
    }
    assert!(rt; place.is_none());
}

// How many steps before the end each call on the way was, as a trace tells it; as many as fit.
#[derive(Clone, Copy)]
struct Told {
    steps: [u64; 8],
    count: usize,
}

const NONE: Told = Told {
    steps: [0; 8],
    count: 0,
};

impl<A: Allocator + Copy> Witness<A> for Told {
    fn passed(
        &mut self,
        _machine: &Machine<A>,
        steps: u64,
        _from: Place<'_>,
    ) -> Result<(), AllocError> {
        let Some(place) = self.steps.get_mut(self.count) else {
            return Err(AllocError);
        };
        *place = steps;
        self.count = self.count.saturating_add(1);
        Ok(())
    }
}

// A witness that has room for three calls refuses the fourth.
fn trace_untold<'a>(
    rt: &impl Abort,
    memory: Memory<'a>,
    session: &mut impl SubjectOver<Memory<'a>>,
) {
    let mut told = Told { count: 5, ..NONE };
    let found = session.trace_back(memory, 0, &mut told);
    assert!(rt; found.steps == 27 && matches!(found.end, End::Untold));
    assert!(rt; told.steps == [0, 0, 0, 0, 0, 10, 11, 21]);
}

// The same way in one trace: the steps of the calls on it are the sums of those above.
fn trace_one<'a>(rt: &impl Abort, memory: Memory<'a>, session: &mut impl SubjectOver<Memory<'a>>) {
    let mut told = NONE;
    let found = session.trace_back(memory, 0, &mut told);
    assert!(rt; found.steps == 43 && matches!(found.end, End::Read(7)));
    assert!(rt; told.steps == [10, 11, 21, 27, 35, 0, 0, 0]);
}

fn follow_one<'a, S: SubjectOver<Memory<'a>>>(rt: &impl Abort, memory: Memory<'a>) {
    let mut session = S::made(memory).expect(rt, "it was refused");
    go_to_end(rt, &mut session, &[PROGRAM]);
    expect_way(rt, &mut session);
    expect_end(rt, &mut session);
    trace_untold(rt, memory, &mut session);
    expect_end(rt, &mut session);
    trace_one(rt, memory, &mut session);
}

// A program that puts the byte `x` into a form of this name, that into a block and back, calls it and prints it.
fn program_of(name: &[u8]) -> [&[u8]; 7] {
    [
        b"#(ds,",
        name,
        b",x)#(sb,B,",
        name,
        b")#(fb,B)#(ps,##(cl,",
        name,
        b"))'",
    ]
}

// The calls that had the byte from the form or from the block, the latest first.
const OF_FORMS: &[&[u8]] = &[b"cl", b"fb", b"sb"];

// With the memory for the name of the form refused at one of these, the trace ends before that call. The witness is
// told of `ps` and of those after the call alone, and the session goes forward again to where it was.
fn expect_refused<'a>(
    rt: &impl Abort,
    memory: Memory<'a>,
    session: &mut impl SubjectOver<Memory<'a>>,
) {
    for (told_before, primitive) in OF_FORMS.iter().enumerate() {
        let told_before = told_before.saturating_add(1);
        let mut told = NONE;
        memory.refuse_nth(told_before as u64);
        let found = session.trace_back(memory, 0, &mut told);
        assert!(rt; matches!(found.end, End::Memory) && told.count == told_before);
        assert!(rt; session.is_next(0, primitive));
        assert!(rt; session.go_forward(found.steps).is_none());
    }
}

// The byte that such a program prints is that of this number of the input: so it is found after each refusal, with a
// request for each of the three names.
fn expect_read<'a, S: SubjectOver<Memory<'a>>>(
    rt: &impl Abort,
    memory: Memory<'a>,
    name: &[u8],
    number: usize,
) {
    let mut session = S::made(memory).expect(rt, "it was refused");
    go_to_end(rt, &mut session, &program_of(name));
    expect_refused(rt, memory, &mut session);
    memory.accept_all();
    let requests = memory.requests();
    let mut told = NONE;
    let found = session.trace_back(memory, 0, &mut told);
    assert!(rt; memory.requests().saturating_sub(requests) == 3);
    let read = match found.end {
        End::Read(n) => n,
        _ => 0,
    };
    assert!(rt; read == number && told.count == 5);
}

// The `;` that it prints is byte 19, an argument of `ln`, and the `a` is made by that. There are 38 steps before the
// input ends: 8 that read the program, 8 up to `ds`, 10 up to `ln`, 3 up to `ps`, and 9 up to the next `rs`.
const LISTING: &[u8] = b"#(ds,a,1)#(ps,#(ln,;))'";

// Follows a byte of what it prints back in one trace, with and without memory. The witness is told of `ps` alone if
// there is none.
fn trace_listed<'a>(
    rt: &impl Abort,
    memory: Memory<'a>,
    session: &mut impl SubjectOver<Memory<'a>>,
    byte: usize,
) -> (Told, Traced) {
    expect_end(rt, session);
    let mut told = NONE;
    let requests = memory.requests();
    memory.refuse_all();
    let found = session.trace_back(memory, byte, &mut told);
    memory.accept_all();
    assert!(rt; memory.requests().saturating_sub(requests) == 1 && lists_names(session));
    assert!(rt; found.steps == 13 && matches!(found.end, End::Memory));
    assert!(rt; told.steps == [10, 0, 0, 0, 0, 0, 0, 0]);
    assert!(rt; session.go_forward(13).is_none());
    let mut again = NONE;
    let found = session.trace_back(memory, byte, &mut again);
    (again, found)
}

fn trace_list<'a, S: SubjectOver<Memory<'a>>>(rt: &impl Abort, memory: Memory<'a>) {
    let mut session = S::made(memory).expect(rt, "it was refused");
    session.add_input(&[LISTING]).expect(rt, "it was refused");
    let (told, found) = trace_listed(rt, memory, &mut session, 0);
    assert!(rt; found.steps == 31 && matches!(found.end, End::Read(19)));
    assert!(rt; told.steps == [10, 13, 0, 0, 0, 0, 0, 0]);
    let (told, found) = trace_listed(rt, memory, &mut session, 1);
    assert!(rt; found.steps == 13 && matches!(found.end, End::Made));
    assert!(rt; told.steps == [10, 0, 0, 0, 0, 0, 0, 0]);
}

#[test]
fn each_byte_of_the_output(rt: HostRuntime) {
    let memory = Refusing::new(rt.alloc());
    follow_each::<Session<Memory<'_>>>(&rt, &memory);
}

#[test]
fn through_a_form_and_a_block(rt: HostRuntime) {
    let memory = Refusing::new(rt.alloc());
    follow_one::<Session<Memory<'_>>>(&rt, &memory);
}

#[test]
fn a_list_of_names(rt: HostRuntime) {
    let memory = Refusing::new(rt.alloc());
    trace_list::<Session<Memory<'_>>>(&rt, &memory);
}

// The `x` comes right after `#(ds,`, the name and a comma.
#[test]
fn a_short_name(rt: HostRuntime) {
    let memory = Refusing::new(rt.alloc());
    expect_read::<Session<Memory<'_>>>(&rt, &memory, b"N", 7);
}

#[test]
fn a_name_of_257_bytes(rt: HostRuntime) {
    let memory = Refusing::new(rt.alloc());
    expect_read::<Session<Memory<'_>>>(&rt, &memory, &[b'N'; 257], 263);
}
