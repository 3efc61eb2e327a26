//! A session whose last steps are kept, with counts of what is forgotten.
ghost use Rattle.std.specs.Prelude.{◌≡◌, ◌+◌, ◌-◌, ◌/◌, ◌^◌, ◌<◌, ◌≤◌, ◌↔◌, ℕ, List, [], ◌++◌, length, true, false};
ghost use Rattle.std.specs.Prelude.{IfErr, IfOk, OnOk, Some, min};
ghost use Rattle.trac_rules.specs.Session.{Back, Commit, End, Feed, PlainSession, Step, answer, done};
ghost use Rattle.trac_rules.specs.Session.{first_kept, new_session, repeated};
ghost use Rattle.trac_rules.specs.Weights.{weights_from};
ghost use Rattle.trac_session.specs.Outputs.{Prints};
ghost use Rattle.trac_streams.specs.Tape.{MayRefuseTape};
ghost use Rattle.trac_moves.specs.Steps.{number_of_step};
ghost use Rattle.trac_moves.specs.Windows.{IsOver, IsWindow, StaysOver};

use std::alloc::Allocator;
use trac_rules::limit::{JOURNAL_LIMIT, TAPE_LIMIT};
use trac_rules::width::Width;
use trac_session::{Refusal, Session};
use trac_streams::Ending;

/// A session over a program, of which the last steps are kept.
#[derive(Drop)]
pub struct Window<A: Allocator + Copy> {
    /// The session, whose first state is the first that one can go back to.
    pub session: Session<A>,
    /// How many steps were forgotten.
    pub forgotten: u64,
    /// How many bytes of the output were forgotten with them.
    pub released: u64,
}

impl<A: Allocator + Copy> Window<A> {
    /// At the start of the program, which is the whole input so far. The journal holds so many steps at
    /// most, and numbers are so wide.
    ///
    /// `Ending::Limit`: the program has more than 33,554,432 bytes. `Ending::Memory`: memory was refused.
    pub fn over(alloc: A, tape: &[u8], limit: usize, width: Width) -> Result<Self, Ending>
        requires some_records { 1 ≤ limit }
        requires most_records { limit ≤ JOURNAL_LIMIT }
        ensures made { OnOk result (length tape.now ≤ TAPE_LIMIT) }
        ensures begun { IfOk result (λ w. answer (Feed tape.now) (new_session limit width) ≡ done w.session) }
        ensures fresh { IfOk result (λ w. (w.forgotten ≡ 0) × (w.released ≡ 0)) }
        ensures output { IfOk result (λ w. IsWindow tape.now 0 [] w.forgotten w.released w.session) }
        ensures over { IfOk result (IsOver (record { bytes = tape.now; ended = false }) width 0) }
        ensures refused { IfErr result (MayRefuseTape tape.now) }
    {
        if tape.len() > TAPE_LIMIT {
            return Err(Ending::Limit);
        }
        let Ok(session) = session_over(alloc, tape, limit, width) else {
            return Err(Ending::Memory);
        };
        Ok(Window {
            session,
            forgotten: 0,
            released: 0,
        })
    }

    /// Forgets all steps but the last, so many of them, and counts these, and the bytes of the
    /// output that are forgotten with them. What is forgotten of the output and what is pending are
    /// what all steps print (`trac_session::outputs`).
    pub fn keep_steps(&mut self, keep: usize)
        ensures kept { answer (Commit keep) self.old.session ≡ done self.new.session }
        ensures steps { self.old.forgotten + (length self.old.session.earlier - keep) < 2 ^ 64 →
            self.new.forgotten ≡ self.old.forgotten + (length self.old.session.earlier - keep) }
        ensures counted { self.old.released + length (first_kept keep self.old.session).output < 2 ^ 64 →
            self.new.released ≡ self.old.released + length (first_kept keep self.old.session).output }
        ensures output { (input text : List ℕ) (steps : ℕ) →
            IsWindow input steps text self.old.forgotten self.old.released self.old.session →
            IsWindow input steps (text ++ (first_kept keep self.old.session).output)
            self.new.forgotten self.new.released self.new.session }
        ensures over { StaysOver self.old self.new }
    {
        let steps = self.session.len().saturating_sub(keep);
        let released = forget_before(&mut self.session, keep);
        self.released = self.released.saturating_add(released as u64);
        self.forgotten = self.forgotten.saturating_add(steps as u64);
    }

    /// Forgets the older half of the steps, as `keep_steps` does, if the records of all of them weigh more than this
    /// (`Session::weight`); whether it did. A step that is the only one stays, whatever it weighs.
    pub fn lighten(&mut self, most: u64) -> bool
        ensures heavy { (result ≡ true)
            ↔ ((most < weights_from self.old.session.earlier) × (1 < length self.old.session.earlier)) }
        ensures kept { result ≡ true →
            answer (Commit (length self.old.session.earlier / 2)) self.old.session ≡ done self.new.session }
        ensures steps { result ≡ true → self.old.forgotten + length self.old.session.earlier < 2 ^ 64 →
            self.new.forgotten
            ≡ self.old.forgotten + (length self.old.session.earlier - length self.old.session.earlier / 2) }
        ensures counted { result ≡ true →
            self.old.released + length (first_kept (length self.old.session.earlier / 2) self.old.session).output
            < 2 ^ 64 → self.new.released
            ≡ self.old.released + length (first_kept (length self.old.session.earlier / 2) self.old.session).output }
        ensures output { result ≡ true → (input text : List ℕ) (steps : ℕ) →
            IsWindow input steps text self.old.forgotten self.old.released self.old.session →
            IsWindow input steps
            (text ++ (first_kept (length self.old.session.earlier / 2) self.old.session).output)
            self.new.forgotten self.new.released self.new.session }
        ensures stayed { result ≡ false → self.new ≡ self.old }
        ensures over { StaysOver self.old self.new }
    {
        let len = self.session.len();
        if len < 2 || self.session.weight() <= most {
            return false;
        }
        self.keep_steps(len / 2);
        true
    }
}

/// If the session of a window goes forward or back, or is fed, or its input ends, what it has released stays, and is
/// still what the window has counted.
pub fn windows_are_walked()
    ensures forward { (n : ℕ) (input text : List ℕ) (steps forgotten released : ℕ) (p q : PlainSession) →
        IsWindow input steps text forgotten released p → repeated Step n p ≡ Some q →
        IsWindow input (steps + n) text forgotten released q }
    ensures back { (n : ℕ) (input text : List ℕ) (steps forgotten released : ℕ) (p q : PlainSession) →
        IsWindow input steps text forgotten released p → repeated Back n p ≡ Some q →
        IsWindow input (steps - n) text forgotten released q }
    ensures fed { (bytes input text : List ℕ) (steps forgotten released : ℕ) (p q : PlainSession) →
        IsWindow input steps text forgotten released p → answer (Feed bytes) p ≡ done q →
        IsWindow (input ++ bytes) steps text forgotten released q }
    ensures end { (input text : List ℕ) (steps forgotten released : ℕ) (p q : PlainSession) →
        IsWindow input steps text forgotten released p → answer End p ≡ done q →
        IsWindow input steps text forgotten released q }
{}

/// A window knows how many steps led to where it stands, as far as 64 bits count. What it has released and then what is
/// pending is what these steps print, however the input goes on.
pub fn windows_show_what_steps_print()
    ensures counted { (input text : List ℕ) (steps forgotten released : ℕ) (p : PlainSession) →
        IsWindow input steps text forgotten released p →
        number_of_step forgotten (length p.earlier) ≡ min steps (2 ^ 64 - 1) }
    ensures printed { (input text : List ℕ) (steps forgotten released : ℕ) (p : PlainSession) →
        IsWindow input steps text forgotten released p → (more : List ℕ) → (p.tape.ended ≡ true → more ≡ []) →
        Prints p.width (input ++ more) steps (text ++ p.last.output) }
{}

// A session over this tape. The error is that memory was refused.
fn session_over<A: Allocator + Copy>(
    alloc: A,
    tape: &[u8],
    limit: usize,
    width: Width,
) -> Result<Session<A>, Refusal>
    requires some_records { 1 ≤ limit }
    requires most_records { limit ≤ JOURNAL_LIMIT }
    ensures { IfOk result (λ s. answer (Feed tape.now) (new_session limit width) ≡ done s) }
{
    fed(Session::new(alloc, limit, width)?, tape)
}

// A session with this tape.
fn fed<A: Allocator + Copy>(mut session: Session<A>, tape: &[u8]) -> Result<Session<A>, Refusal>
    ensures { IfOk result (λ s. answer (Feed tape.now) session ≡ done s) }
{
    match session.feed(tape) {
        Ok(()) => Ok(session),
        Err(refusal) => Err(refusal),
    }
}

// Keeps so many steps, and returns how many bytes of the output are forgotten with the others: those
// of the first state that stays.
fn forget_before<A: Allocator + Copy>(session: &mut Session<A>, keep: usize) -> usize
    ensures printed { result ≡ length (first_kept keep session.old).output }
    ensures kept { answer (Commit keep) session.old ≡ done session.new }
{
    let released = session.pending_before(keep).len();
    session.commit(keep);
    released
}
