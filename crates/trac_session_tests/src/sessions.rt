//! Sessions over memory of which a request may be refused.
ghost use Rattle.std.specs.Prelude.{◌≤◌};

use crate::commands::add_letters;
use crate::quiet::machine_lends;
use std::alloc::{Allocator, Global};
use std::process::Abort;
use trac_gap::TwoEnds;
use trac_machine_tests::{Memory, shown_after, texts_shown};
use trac_rules::limit::JOURNAL_LIMIT;
use trac_rules::refusal::Refusal;
use trac_rules::width::Width;
use trac_session::{Command, Session, Walk};
use trac_step::{Core, Mark};

/// What these tests tell a session, and what it shows them. Helpers are over any type of this kind: a proof over
/// sessions would carry what a session is, at each call.
pub(crate) trait Subject: Sized + Drop {
    /// These bytes are fed.
    fn feed(&mut self, bytes: &[u8]) -> Result<(), Refusal>;

    /// The input ends.
    fn end(&mut self);

    fn forward(&mut self, n: u64) -> Walk;

    fn back(&mut self, n: u64) -> Walk;

    fn back_until(&mut self, name: &[u8]) -> Walk;

    /// A commit keeps so many steps.
    fn commit(&mut self, count: usize);

    /// Adds a letter for what each command of a list is replied to, or says why nothing was done.
    fn carry_out_all(
        &mut self,
        commands: &[Command<'_>],
        letters: &mut Vec<u8>,
    ) -> Result<(), Refusal>;

    /// How many steps can be gone back over.
    fn len(&self) -> usize;

    fn is_empty(&self) -> bool;

    fn weight(&self) -> u64;

    /// What is printed and not released.
    fn pending(&self) -> &[u8];

    /// What a commit that keeps so many steps would release.
    fn pending_before(&self, keep: usize) -> &[u8];

    /// What is fed and not read.
    fn unread(&self) -> &[u8];

    /// How many bytes are read of the tape as the session has it.
    fn position(&self) -> usize;

    /// What is not scanned yet.
    fn active(&self) -> &[u8];

    fn form_count(&self) -> usize;

    /// Whether all parts but the texts are those in which a processor begins.
    fn has_initial_parts(&self) -> bool;

    /// How much its machine lends, by each of its readers.
    fn machine_lends(&self) -> usize;

    /// The texts of its last state. None if memory was refused.
    fn texts(&self, plain: Global) -> Option<Vec<u8>>;

    /// All of its last state, with what was released before it. None if memory was refused.
    fn shown(&self, plain: Global, printed: &[u8], read: usize) -> Option<Vec<u8>>;
}

/// A subject that is made with memory of this kind.
pub(crate) trait SubjectOver<A: Allocator + Copy>: Subject {
    /// Its journal may hold so many records, and its numbers have this width.
    fn new_one(alloc: A, limit: usize, width: Width) -> Result<Self, Refusal>
        requires some { 1 ≤ limit }
        requires most { limit ≤ JOURNAL_LIMIT };
}

impl<A: Allocator + Copy> SubjectOver<A> for Session<A> {
    fn new_one(alloc: A, limit: usize, width: Width) -> Result<Self, Refusal> {
        Session::new(alloc, limit, width)
    }
}

// A proof over a certain machine would show anew, at each call, what its lists are.
fn begins<E: TwoEnds<u8, A>, M: TwoEnds<Mark, A>, A: Allocator + Copy>(
    machine: &Core<E, M, A>,
) -> bool {
    machine.output().is_empty()
        && machine.position() == 0
        && machine.store().form_count() == 0
        && machine.meta() == b'\''
        && !machine.trace()
}

impl<A: Allocator + Copy> Subject for Session<A> {
    fn feed(&mut self, bytes: &[u8]) -> Result<(), Refusal> {
        self.feed(bytes)
    }

    fn end(&mut self) {
        self.end();
    }

    fn forward(&mut self, n: u64) -> Walk {
        self.forward(n)
    }

    fn back(&mut self, n: u64) -> Walk {
        self.back(n)
    }

    fn back_until(&mut self, name: &[u8]) -> Walk {
        self.back_until(name)
    }

    fn commit(&mut self, count: usize) {
        self.commit(count);
    }

    fn carry_out_all(
        &mut self,
        commands: &[Command<'_>],
        letters: &mut Vec<u8>,
    ) -> Result<(), Refusal> {
        let replies = self.perform(commands)?;
        add_letters(replies.as_slice(), letters)
    }

    fn len(&self) -> usize {
        self.len()
    }

    fn is_empty(&self) -> bool {
        self.is_empty()
    }

    fn weight(&self) -> u64 {
        self.weight()
    }

    fn pending(&self) -> &[u8] {
        self.pending()
    }

    fn pending_before(&self, keep: usize) -> &[u8] {
        self.pending_before(keep)
    }

    fn unread(&self) -> &[u8] {
        self.unread()
    }

    fn position(&self) -> usize {
        self.machine().position()
    }

    fn active(&self) -> &[u8] {
        self.machine().active()
    }

    fn form_count(&self) -> usize {
        self.machine().store().form_count()
    }

    fn has_initial_parts(&self) -> bool {
        begins(self.machine())
    }

    fn machine_lends(&self) -> usize {
        machine_lends(self.machine())
    }

    fn texts(&self, plain: Global) -> Option<Vec<u8>> {
        texts_shown(plain, self.machine())
    }

    fn shown(&self, plain: Global, printed: &[u8], read: usize) -> Option<Vec<u8>> {
        shown_after(plain, self.machine(), printed, read)
    }
}

/// A session whose journal may hold so many records, and whose numbers have this width. One request for memory may be
/// refused: then making the session fails, for memory alone, and the next try is accepted.
pub(crate) fn made<A: Allocator + Copy, S: SubjectOver<A>>(
    rt: &impl Abort,
    memory: Memory<'_>,
    alloc: A,
    limit: usize,
    width: Width,
) -> S {
    assert!(rt; 1 <= limit && limit <= JOURNAL_LIMIT);
    let refusals = memory.refusals();
    let Ok(session) = S::new_one(alloc, limit, width) else {
        assert!(rt; memory.refusals() > refusals);
        return S::new_one(alloc, limit, width).expect(rt, "it was refused again");
    };
    assert!(rt; memory.refusals() == refusals);
    session
}
