//! A session: a processor that goes forwards and backwards over an input that is fed to it.
ghost use Rattle.std.specs.Prelude.{◌≡◌, ◌==◌, ◌≤◌, ◌∷◌, [], drop, length, take, IfOk, IsOkUnless};
ghost use Rattle.std.specs.List.{All};
ghost use Rattle.trac_rules.specs.declared.reply.Reply.TheVariants.{Done};
ghost use Rattle.trac_rules.specs.Fronts.{IsFrontOf};
ghost use Rattle.trac_rules.specs.Reading.{unread};
ghost use Rattle.trac_rules.specs.Session.{new_session, Feed, End, Step, Back, Commit, answer, Answers, first_kept};
ghost use Rattle.trac_rules.specs.Session.{settled};
ghost use Rattle.trac_rules.specs.Trails.{IsTrail};
ghost use Rattle.trac_rules.specs.Weights.{losses_from, weights_from};
ghost use Rattle.trac_step.specs.Room.{HasRoom};
ghost use Rattle.trac_session.specs.Journal.{IsAtStart};
ghost use Rattle.trac_session.specs.Knowing.{HasForgotten, KnowsItsOwn, names_in};
ghost use Rattle.trac_session.specs.Replies.{reply_of};

use crate::sweep_mark::SweepMark;
use std::alloc::{Allocator, Global};
use std::marker::Model;
use trac_gap::{SlidingBuf, TwoEnds};
use trac_journal::Journal;
use trac_prims::Made;
use trac_rules::limit::{JOURNAL_LIMIT, TAPE_LIMIT};
use trac_rules::refusal::Refusal;
use trac_rules::width::Width;
use trac_step::{Core, Machine, Mark, Tape};

/// How many bytes a record takes at most for each that it weighs. An item of a form takes 8 bytes in it, and weighs
/// one, and lists may have as much room again as they need.
pub const WEIGHED_BYTES: u64 = 12;

/// A processor with its input and a journal of its steps. It is seen as its limit, the width of numbers, a tape, and a
/// list of states. The first of these is the first one that the last commit kept, or the initial one. The last is the
/// machine's.
#[derive(Drop)]
pub struct Session<A: Allocator + Copy = Global> {
    pub(crate) tape: SlidingBuf<u8, A>,
    ended: bool,
    pub(crate) machine: Machine<A>,
    pub(crate) journal: Journal<A>,
    // the buffers in which calls make their texts, one after another: no part of what a session is
    made: Made<A>,
    pub(crate) limit: usize,
    // how wide the machine's numbers are
    width: Width,
    // which of the steps may need names that are aged now
    pub(crate) mark: SweepMark,
}

impl<A: Allocator + Copy> Model for Session<A> {
    ghost use Rattle.trac_rules.specs.Session.{PlainSession};
    ghost use Rattle.trac_session.specs.Codes.{session_code};
    ghost use Rattle.trac_session.specs.Journal.{plain_of, IsSession};

    ghost Value = { PlainSession };

    ghost coded = { session_code };

    ghost view = { λ s. plain_of s.limit s.machine.width s.tape.items s.ended s.journal.records s.machine.state };

    ghost invariant = { λ s. IsSession s.limit s.width s.tape.items s.ended s.mark s.journal.records s.machine };
}

impl<A: Allocator + Copy> Session<A> {
    /// A session in the initial state, with an empty tape and numbers of this width, which nothing changes later. Its
    /// journal may hold so many records: 1 to 1,048,576.
    /// Refused with `Memory` if the allocator refuses.
    pub fn new(alloc: A, limit: usize, width: Width) -> Result<Self, Refusal>
        requires some { 1 ≤ limit }
        requires most { limit ≤ JOURNAL_LIMIT }
        ensures made { IfOk result (λ s. s ≡ new_session limit width) }
        ensures err { IsOkUnless result Refusal.Memory }
    {
        let mut machine = Machine::new(alloc, width)?;
        let journal = Journal::new(alloc);
        forget_names(&mut machine, &journal);
        Ok(Session {
            tape: SlidingBuf::new(alloc),
            ended: false,
            machine,
            journal,
            made: Made::new(alloc),
            limit,
            width,
            mark: SweepMark::none(),
        })
    }

    /// Adds these bytes to the end of the tape.
    /// Refused, with nothing changed, as `Closed` after the end of the input. Else as `TooLong` if the tape would pass
    /// 33,554,432 bytes; and with `Memory` if the tape cannot grow.
    pub fn feed(&mut self, bytes: &[u8]) -> Result<(), Refusal>
        ensures { Answers (Feed bytes.now) self.old (reply_of result) self.new }
    {
        if self.ended {
            return Err(Refusal::Closed);
        }
        if bytes.len() > TAPE_LIMIT - self.tape.len() {
            return Err(Refusal::TooLong);
        }
        let Ok(()) = self.tape.extend_from_slice(bytes) else {
            return Err(Refusal::Memory);
        };
        Ok(())
    }

    /// The input ends after what was fed. A second time this changes nothing.
    pub fn end(&mut self)
        ensures { answer End self.old ≡ record { reply = Done; session = self.new } }
    {
        self.ended = true;
    }

    /// Goes forward by one step.
    /// Refused, with nothing changed, as `JournalFull` if the journal holds as many records as it may. Else as
    /// `NeedInput` or `Ended` if the step reads input that is not there, and as `Ended` also if it performs `hl`. Else
    /// as `TooLong` if the state after the step passes a limit; and with `Memory` if there is not enough of it.
    #[inline(always)]
    pub(crate) fn step(&mut self) -> Result<(), Refusal>
        ensures { Answers Step self.old (reply_of result) self.new }
    {
        if self.journal.len() >= self.limit {
            return Err(Refusal::JournalFull);
        }
        let tape = Tape {
            bytes: self.tape.as_slice(),
            ended: self.ended,
        };
        if let Err(refusal) = self
            .machine
            .step_into(&mut self.journal, tape, &mut self.made)
        {
            forget_names(&mut self.machine, &self.journal);
            return Err(refusal);
        }
        Ok(())
    }

    /// Goes back over the last step, which takes no memory.
    /// Refused, with nothing changed, as `AtStart` if there is no record to go back over.
    // The loop of a walk calls this, so that the loop holds only the most frequent rules of scanning.
    #[inline(never)]
    pub(crate) fn step_back(&mut self) -> Result<(), Refusal>
        ensures { answer Back self.old ≡ record { reply = reply_of result; session = self.new } }
    {
        if !self.mark.step_back(&mut self.machine, &mut self.journal) {
            return Err(Refusal::AtStart);
        }
        forget_names(&mut self.machine, &self.journal);
        Ok(())
    }

    /// What is printed and not released yet. It takes no memory.
    pub fn pending(&self) -> &[u8]
        ensures { result.now ≡ self.now.last.output }
    {
        self.machine.output()
    }

    /// What is fed and not read yet. The whole tape, with what is read of it and not released, never passes 33,554,432
    /// bytes. It takes no memory.
    pub fn unread(&self) -> &[u8]
        ensures rest { result.now ≡ unread self.now.tape self.now.last }
        ensures tape { length self.now.tape.bytes ≤ TAPE_LIMIT }
    {
        self.tape.as_slice().split_at(self.machine.position()).1
    }

    /// What a commit that keeps so many steps releases: the output of the first state that stays. The outputs of the
    /// others begin with it. It takes no memory, and time for the steps that the commit drops.
    pub fn pending_before(&self, keep: usize) -> &[u8]
        ensures released { result.now ≡ (first_kept keep self.now).output }
        ensures begins { All (λ s. IsFrontOf result.now s.output) (self.now.last ∷ take keep self.now.earlier) }
    {
        let output = self.machine.output();
        let printed = self.journal.printed_before(keep);
        output.split_at(printed).0
    }

    /// Keeps the last state and so many steps before it, or all if there are fewer, and forgets what was before. The
    /// first state that stays becomes the first one of all. Its output is released from it and from all after it, so
    /// read `pending_before` first. What it has read of the tape is dropped. With 0 the last state alone stays, all
    /// that is pending is released, and the names of deleted forms are forgotten.
    ///
    /// With more than 0, names of deleted forms are forgotten once no step needs them. A commit that drops the last
    /// step from before the last sweep of such names sweeps again. It forgets each name that has had no form since
    /// that sweep. So a name that loses its form is forgotten by the second sweep after that, at the latest.
    ///
    /// A commit takes no memory and always succeeds. It takes time for what it drops and for the names that it forgets,
    /// and none for what it keeps.
    pub fn commit(&mut self, keep: usize)
        ensures { answer (Commit keep) self.old ≡ record { reply = Done; session = self.new } }
    {
        // The last state stays alone. Only going back needs the names of deleted forms.
        if keep == 0 {
            release_all(&mut self.machine, &mut self.tape);
            self.journal.clear();
            forget_names(&mut self.machine, &self.journal);
            self.mark = SweepMark::none();
            return;
        }
        // The contract of `len` says that the output's length fits a word. The sums of what was printed are no greater.
        let _len = self.machine.output().len();
        // What is released is told by the records that are dropped, since the first state of a session has no output
        // and has read nothing.
        let passed = self
            .mark
            .keep_newest(&mut self.machine, &mut self.journal, keep);
        self.tape.drop_front(passed.read);
    }

    /// How many steps can be gone back over: never more than the limit that the session was made with, which is at most
    /// 1,048,576. It takes no memory.
    pub fn len(&self) -> usize
        ensures count { result ≡ length self.now.earlier }
        ensures within { result ≤ self.now.limit }
        ensures most { self.now.limit ≤ JOURNAL_LIMIT }
    {
        self.journal.len()
    }

    /// Whether there is no step to go back over. It takes no memory.
    pub fn is_empty(&self) -> bool
        ensures { result ≡ (length self.now.earlier == 0) }
    {
        self.len() == 0
    }

    /// What the records of the steps that can be gone back over weigh together. Of what was destroyed they weigh bytes
    /// and items of forms, and one for each comma, begun function, name and meta character. They weigh one too for each
    /// gap that a call made, but not its place. Lengths, places and flags are not weighed. It takes no memory.
    pub fn weight(&self) -> u64
        ensures together { result ≡ weights_from self.now.earlier }
        ensures within { result ≤ losses_from self.now.earlier }
    {
        self.journal.weight()
    }

    /// How wide numbers are: as the session was made, and nothing changes it. It takes no memory.
    pub fn width(&self) -> Width
        ensures { result ≡ self.now.width }
    {
        self.width
    }

    /// The machine, which shows the last state. It has room for that state and each before it, and knows the names of
    /// all their forms: so going back takes no memory. Without a state before the last, as after `commit(0)`, it knows
    /// no other names. Each of these states but the first is the step from the one before it, over the tape as it is
    /// now. So it is whatever the session was told before. It takes no memory.
    pub fn machine(&self) -> &Machine<A>
        ensures last { result.now.state ≡ self.now.last }
        ensures width { result.now.width ≡ self.now.width }
        ensures on_tape { self.now.last.position ≤ length self.now.tape.bytes }
        ensures room { All (λ s. HasRoom result.now s) (self.now.last ∷ self.now.earlier) }
        ensures names { self.now.earlier ≡ [] → result.now.known ≡ names_in self.now.last }
        ensures trail { IsTrail self.now }
    {
        // For its clause that a machine has room for the state that it shows.
        let _width = self.machine.width();
        &self.machine
    }
}

// Releases what is printed, and takes what is read off the front of the tape. Here and below the machine may be of any
// representation: a proof for a certain one shows anew, at each call, what its lists are.
fn release_all<E: TwoEnds<u8, A>, M: TwoEnds<Mark, A>, A: Allocator + Copy>(
    machine: &mut Core<E, M, A>,
    tape: &mut SlidingBuf<u8, A>,
)
    requires { machine.old.state.position ≤ length tape.old.items }
    ensures machine { machine.new ≡ record machine.old { state = settled machine.old.state } }
    ensures tape { tape.new.items ≡ drop machine.old.state.position tape.old.items }
{
    tape.drop_front(machine.position());
    let printed = machine.output().len();
    let read = machine.position();
    machine.release(printed, read);
}

// Forgets the names of deleted forms if there is no step to go back over: only going back needs them.
pub(crate) fn forget_names<E: TwoEnds<u8, A>, M: TwoEnds<Mark, A>, A: Allocator + Copy>(
    machine: &mut Core<E, M, A>,
    journal: &Journal<A>,
)
    requires { journal.now.records ≡ [] → IsAtStart machine.old.state }
    ensures forgotten { HasForgotten journal.now.records machine.old machine.new }
    ensures own { KnowsItsOwn journal.now.records machine.new }
{
    if journal.len() == 0 {
        machine.settle();
    }
}
