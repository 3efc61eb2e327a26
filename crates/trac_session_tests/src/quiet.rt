//! What may never ask for memory asks for none: while the calls that go back, let go, change what is there or lend it
//! are made, the count of requests stays. A body that asks, and goes on if it is refused, is proved; it fails here.
use crate::sessions::{Subject, SubjectOver, made};
use std::alloc::Allocator;
use std::process::Abort;
use trac_faults::Refusing;
use trac_forms::{Block, Form, FormError, Store};
use trac_gap::TwoEnds;
use trac_machine_tests::Memory;
use trac_rules::refusal::Refusal;
use trac_rules::width::Width;
use trac_session::Session;
use trac_step::{Core, Mark};

// A program that defines, cuts, reads, puts aside, erases, deletes, protects and prints.
const PROGRAM: &[u8] =
    b"#(ds,A,abcb)#(ss,A,b)#(cs,A)#(ds,A,x)#(ds,B,y)#(sb,G,B)#(fb,G)#(eb,G)#(dd,A)#(da)(p)\t#(ps,q)'";

// Goes forward until the input has to go on.
fn go_forward(session: &mut impl Subject) -> bool {
    session.forward(u64::MAX).why == Some(Refusal::NeedInput)
}

// How much texts and counts a machine lends, so that each of its readers is called.
fn texts_lent<E: TwoEnds<u8, A>, M: TwoEnds<Mark, A>, A: Allocator + Copy>(
    machine: &Core<E, M, A>,
) -> usize {
    let texts = machine.active().len() | machine.base().len() | machine.output().len();
    let name = machine.at_call().map_or(0, <[u8]>::len);
    texts | name | machine.depth() | machine.position()
}

// How many arguments of a begun function it lends, and whether one is begun.
fn arguments_lent<E: TwoEnds<u8, A>, M: TwoEnds<Mark, A>, A: Allocator + Copy>(
    machine: &Core<E, M, A>,
) -> usize {
    let arguments = machine.frame(0).map_or(0, |frame| frame.1.count());
    let begun = machine.begun_functions().next().is_some();
    arguments | begun as usize
}

// How much of a form and of a block a store lends, and what it counts.
fn forms_lent<A: Allocator + Copy>(store: &Store<A>) -> usize {
    let form = store.get(b"A").map_or(0, |form| form.len());
    let block = store.block(0).map_or(0, |block| block.len());
    form | block | store.form_count()
}

/// How much the machine of a session lends: texts, arguments and forms.
pub(crate) fn machine_lends<E: TwoEnds<u8, A>, M: TwoEnds<Mark, A>, A: Allocator + Copy>(
    machine: &Core<E, M, A>,
) -> usize {
    texts_lent(machine) | arguments_lent(machine) | forms_lent(machine.store())
}

// How much a session itself lends, and what it counts.
fn lent(session: &impl Subject) -> usize {
    let texts = session.pending().len() | session.pending_before(1).len();
    let counts = session.len() | session.weight() as usize;
    texts | counts | session.unread().len()
}

// A session goes back over each kind of call, and to the start.
fn all_goes_back(session: &mut impl Subject) -> bool {
    let is_found = session.back_until(b"cs").why.is_none();
    let is_lent = (session.machine_lends() > 0) & (lent(session) > 0);
    is_found & is_lent & (session.back(u64::MAX).done > 0)
}

// A session lets steps go, some and then all, and ends its input.
fn lets_go(session: &mut impl Subject) -> bool {
    session.commit(3);
    session.end();
    session.commit(0);
    session.is_empty()
}

fn expect_quiet<'a, S: SubjectOver<Memory<'a>>>(rt: &impl Abort, memory: Memory<'a>) {
    let mut session: S = made(rt, memory, memory, 1_000, Width::W128);
    session.feed(PROGRAM).expect(rt, "it was refused");
    assert!(rt; go_forward(&mut session));
    let requests = memory.requests();
    assert!(rt; all_goes_back(&mut session) && memory.requests() == requests);
    assert!(rt; go_forward(&mut session));
    let requests = memory.requests();
    assert!(rt; lets_go(&mut session) && memory.requests() == requests);
}

#[test]
fn sessions_go_back_and_commit(rt: HostRuntime) {
    let memory = Refusing::new(rt.alloc());
    expect_quiet::<Session<Memory<'_>>>(&rt, &memory);
}

fn new_form<A: Allocator + Copy>(rt: &impl Abort, alloc: A, text: &[u8]) -> Form<A> {
    Form::new(alloc, text).expect(rt, "there was no memory")
}

fn put<A: Allocator + Copy>(rt: &impl Abort, store: &mut Store<A>, name: &[u8], form: Form<A>) {
    let _none = store.insert(name, form).expect(rt, "there was no memory");
}

// A store of two forms, with a place for a block.
fn stored<A: Allocator + Copy>(rt: &impl Abort, alloc: A) -> Store<A> {
    let mut store = Store::new(alloc);
    put(rt, &mut store, b"A", new_form(rt, alloc, b"abcb"));
    put(rt, &mut store, b"B", new_form(rt, alloc, b"y"));
    store.reserve_blocks(1).expect(rt, "there was no memory");
    store
}

// Texts are cut out of a form, once memory for the cut is there.
fn is_cut<A: Allocator + Copy>(
    memory: Memory<'_>,
    store: &mut Store<A>,
) -> Result<bool, FormError> {
    let texts: &[&[u8]] = &[b"b"];
    let Some(form) = store.get(b"A") else {
        return Ok(false);
    };
    let cut = form.cut_for(&texts)?;
    let requests = memory.requests();
    let pointer = store.segment(b"A", &cut, &texts);
    Ok(pointer == Some(0) && memory.requests() == requests)
}

// A form is taken and put again under its name, which is known, and its pointer is set.
fn is_put_again<A: Allocator + Copy>(store: &mut Store<A>) -> bool {
    let Some(form) = store.take(b"A") else {
        return false;
    };
    let Ok(None) = store.insert(b"A", form) else {
        return false;
    };
    store.set_pointer(b"A", 1) == Some(0)
}

// A block is put at the end, for which there is a place, and taken.
fn is_taken<A: Allocator + Copy>(store: &mut Store<A>, block: Block<A>) -> bool {
    let Ok(()) = store.reserve_blocks(1) else {
        return false;
    };
    store.push_block(block);
    let taken = store.take_block(0);
    taken.is_some() && store.pop_block().is_none()
}

// All forms leave, and then the names.
fn is_emptied<A: Allocator + Copy>(store: &mut Store<A>) -> bool {
    store.clear();
    store.sweep();
    store.form_count() == 0
}

fn expect_quiet_changes<A: Allocator + Copy>(
    rt: &impl Abort,
    memory: Memory<'_>,
    store: &mut Store<A>,
    block: Block<A>,
) {
    assert!(rt; is_cut(memory, store) == Ok(true));
    let requests = memory.requests();
    assert!(rt; is_put_again(store) && is_taken(store, block) && is_emptied(store));
    assert!(rt; memory.requests() == requests);
}

fn expect_quiet_store<A: Allocator + Copy>(rt: &impl Abort, memory: Memory<'_>, alloc: A) {
    let mut store = stored(rt, alloc);
    let block = Block::with_room(alloc, 1).expect(rt, "there was no memory");
    expect_quiet_changes(rt, memory, &mut store, block);
}

#[test]
fn stores_change_what_is_there(rt: HostRuntime) {
    let memory = Refusing::new(rt.alloc());
    expect_quiet_store(&rt, &memory, &memory);
}
