//! A session, told what to do by a table: what each act must answer, and what the session must show.
use crate::sessions::{Subject, SubjectOver, made};
use std::alloc::{Allocator, Global};
use std::process::Abort;
use trac_faults::Refusing;
use trac_machine_tests::Memory;
use trac_rules::refusal::Refusal;
use trac_rules::width::Width;
use trac_session::{Session, Walk};

/// One act on a session with what it answers, or one part of what it shows then.
pub(crate) enum Act {
    /// These bytes are fed.
    Feed(&'static [u8]),
    /// These bytes are refused.
    FeedRefused(&'static [u8], Refusal),
    /// So many letters `a` are fed.
    FeedLetters(usize),
    /// So many letters `a` are refused.
    LettersRefused(usize, Refusal),
    /// So many letters `a` are fed and not read yet, and nothing else.
    UnreadLetters(usize),
    End,
    /// A commit keeps so many steps, and releases this.
    Commit(usize, &'static [u8]),
    /// So many steps forward are taken, each with a commit after it that keeps the second number of them.
    ForwardInWindow(u64, usize),
    /// So many steps forward are taken.
    Forward(u64),
    /// Of so many steps forward the second number are taken, and then one is refused.
    ForwardRefused(u64, u64, Refusal),
    /// Steps forward are taken until one is refused so.
    ForwardUntil(Refusal),
    /// So many steps are gone back over.
    Back(u64),
    /// Of so many steps the second number are gone back over, and then the start is there.
    BackToStart(u64, u64),
    /// So many steps are gone back over to a call of this name.
    BackUntil(&'static [u8], u64),
    /// So many steps are gone back over, and then a search for a call of this name is refused so.
    BackUntilRefused(&'static [u8], u64, Refusal),
    /// The base text, the begun functions, a `^`, and what is not scanned yet.
    Shows(&'static [u8]),
    /// What is not scanned yet.
    Active(&'static [u8]),
    Pending(&'static [u8]),
    /// A commit that keeps so many steps would release this.
    PendingBefore(usize, &'static [u8]),
    Position(usize),
    Forms(usize),
    /// So many steps can be gone back over.
    Records(usize),
    /// The records of these weigh so much together.
    Weighs(u64),
    /// The state is the one in which a processor begins.
    Initial,
}

// This act is met.
fn expect(rt: &impl Abort, is_met: bool, at: usize) {
    assert!(rt; is_met, "at act {at}");
}

// So many letters `a`.
fn letters(rt: &impl Abort, alloc: Global, count: usize) -> Vec<u8> {
    vec![in alloc; b'a'; count].expect(rt, "there was no memory")
}

fn feed_letters(
    rt: &impl Abort,
    session: &mut impl Subject,
    alloc: Global,
    count: usize,
    answer: Result<(), Refusal>,
) -> bool {
    feeds(session, letters(rt, alloc, count).as_slice(), answer)
}

// The refusal that ends all steps forward, of which there may be a thousand.
fn forward_to_end(session: &mut impl Subject) -> Result<(), Refusal> {
    match session.forward(1_000).why {
        Some(why) => Err(why),
        None => Ok(()),
    }
}

// Whether these bytes are fed, or refused so.
fn feeds(session: &mut impl Subject, bytes: &[u8], answer: Result<(), Refusal>) -> bool {
    session.feed(bytes) == answer
}

// Whether a walk took so many steps, and then ended for this reason.
fn is_walk(walk: Walk, done: u64, why: Option<Refusal>) -> bool {
    walk.done == done && walk.why == why
}

fn goes_forward(session: &mut impl Subject, n: u64, done: u64, why: Option<Refusal>) -> bool {
    is_walk(session.forward(n), done, why)
}

fn goes_back(session: &mut impl Subject, n: u64, done: u64, why: Option<Refusal>) -> bool {
    is_walk(session.back(n), done, why)
}

fn goes_back_until(
    session: &mut impl Subject,
    name: &[u8],
    done: u64,
    why: Option<Refusal>,
) -> bool {
    is_walk(session.back_until(name), done, why)
}

// Makes a commit that keeps so many steps, and says whether this is what it releases.
fn commits(session: &mut impl Subject, keep: usize, released: &[u8]) -> bool {
    let is_met = session.pending_before(keep) == released;
    session.commit(keep);
    is_met
}

// Whether so many steps are taken, each with a commit after it. Before a commit there is one record
// more than it keeps at most.
fn goes_in_window(session: &mut impl Subject, n: u64, keep: usize) -> bool {
    for _ in 0..n {
        let is_taken = session.forward(1).why.is_none();
        if !is_taken || session.len() > keep.saturating_add(1) {
            return false;
        }
        session.commit(keep);
    }
    session.len() <= keep
}

// Carries out one act that may change the session, and says whether it is answered so.
fn carry_out(rt: &impl Abort, alloc: Global, session: &mut impl Subject, act: &Act) -> bool {
    match *act {
        Act::Feed(bytes) => feeds(session, bytes, Ok(())),
        Act::FeedRefused(bytes, why) => feeds(session, bytes, Err(why)),
        Act::FeedLetters(count) => feed_letters(rt, session, alloc, count, Ok(())),
        Act::LettersRefused(count, why) => feed_letters(rt, session, alloc, count, Err(why)),
        Act::End => {
            session.end();
            true
        }
        Act::Commit(keep, released) => commits(session, keep, released),
        Act::ForwardInWindow(n, keep) => goes_in_window(session, n, keep),
        Act::Forward(n) => goes_forward(session, n, n, None),
        Act::ForwardRefused(n, done, why) => goes_forward(session, n, done, Some(why)),
        Act::ForwardUntil(why) => forward_to_end(session) == Err(why),
        _ => true,
    }
}

// Goes back as an act says, while every request for memory is refused, and says whether it is
// answered so. None is made.
fn go_back(memory: Memory<'_>, session: &mut impl Subject, act: &Act) -> bool {
    let requests = memory.requests();
    memory.refuse_all();
    let is_met = match *act {
        Act::Back(n) => goes_back(session, n, n, None),
        Act::BackToStart(n, done) => goes_back(session, n, done, Some(Refusal::AtStart)),
        Act::BackUntil(name, done) => goes_back_until(session, name, done, None),
        Act::BackUntilRefused(name, done, why) => goes_back_until(session, name, done, Some(why)),
        _ => true,
    };
    memory.accept_all();
    is_met && memory.requests() == requests
}

// Whether the texts are these.
fn shows(rt: &impl Abort, alloc: Global, session: &impl Subject, text: &[u8]) -> bool {
    let shown = session.texts(alloc).expect(rt, "there was no memory");
    shown.as_slice() == text
}

fn is_initial(rt: &impl Abort, alloc: Global, session: &impl Subject) -> bool {
    session.has_initial_parts() && shows(rt, alloc, session, b"^#(ps,#(rs))")
}

fn has_letters(rt: &impl Abort, alloc: Global, session: &impl Subject, count: usize) -> bool {
    session.unread() == letters(rt, alloc, count).as_slice()
}

fn has_records(session: &impl Subject, count: usize) -> bool {
    session.len() == count && session.is_empty() == (count == 0)
}

// Whether the part that an act speaks of is so.
fn look(rt: &impl Abort, alloc: Global, session: &impl Subject, act: &Act) -> bool {
    match *act {
        Act::UnreadLetters(count) => has_letters(rt, alloc, session, count),
        Act::Records(count) => has_records(session, count),
        Act::Weighs(weight) => session.weight() == weight,
        Act::Pending(text) => session.pending() == text,
        Act::PendingBefore(keep, text) => session.pending_before(keep) == text,
        Act::Shows(text) => shows(rt, alloc, session, text),
        Act::Active(text) => session.active() == text,
        Act::Position(count) => session.position() == count,
        Act::Forms(count) => session.form_count() == count,
        Act::Initial => is_initial(rt, alloc, session),
        _ => true,
    }
}

fn play_all(
    rt: &impl Abort,
    alloc: Global,
    memory: Memory<'_>,
    session: &mut impl Subject,
    acts: &[Act],
) {
    for (at, act) in acts.iter().enumerate() {
        let is_met = carry_out(rt, alloc, session, act)
            && go_back(memory, session, act)
            && look(rt, alloc, session, act);
        expect(rt, is_met, at);
    }
}

fn play_on<A: Allocator + Copy, S: SubjectOver<A>>(
    rt: &impl Abort,
    plain: Global,
    (memory, alloc): (Memory<'_>, A),
    limit: usize,
    acts: &[Act],
) {
    let mut session: S = made(rt, memory, alloc, limit, Width::W128);
    play_all(rt, plain, memory, &mut session, acts);
}

/// Carries out these acts, one after another, on a new session whose journal may hold so many records.
pub(crate) fn play(rt: &impl Abort, alloc: Global, limit: usize, acts: &[Act]) {
    let memory = Refusing::new(alloc);
    play_on::<Memory<'_>, Session<Memory<'_>>>(rt, alloc, (&memory, &memory), limit, acts);
}
