//! A walker: a session whose way back never stops a walk, and where it stands.
ghost use Rattle.std.specs.Prelude.{◌≡◌, ◌≤◌, ◌<◌, ◌⊎◌, ◌+◌, ◌++◌, ℕ, length, not, false, true, IfErr, IfOk, None};
ghost use Rattle.std.specs.Prelude.{OnOk, Some};
ghost use Rattle.trac_rules.specs.Session.{Step, repeated};
ghost use Rattle.trac_rules.specs.State.{Tape};
ghost use Rattle.trac_streams.specs.Escapes.{feed};
ghost use Rattle.trac_streams.specs.Tape.{MayRefuseTape};
ghost use Rattle.trac_moves.specs.Aims.{MeetsAim, goal_of_aim};
ghost use Rattle.trac_moves.specs.Steps.{number_of_step};
ghost use Rattle.trac_moves.specs.Walkers.{IsBackward, IsForward, IsReturned, IsTo, IsTowards, Moves, Stands};
ghost use Rattle.trac_moves.specs.Walkers.{refusal_said};
ghost use Rattle.trac_moves.specs.Windows.{IsOver};

use crate::aim::{Aim, goal_for};
use crate::window::Window;
use std::alloc::{AllocError, Allocator};
use trac_rules::byte::LINE_FEED;
use trac_rules::limit::{JOURNAL_LIMIT, TAPE_LIMIT};
use trac_rules::width::Width;
use trac_session::{Doubt, Goal, Machine, Refusal, Return, Session, WEIGHED_BYTES, Walk};
use trac_sight::{Forgetting, Glance, Reach, Sight, glance_at, lacks_output_room, sight_of};
use trac_streams::Ending;

/// A session over a program, and how far it is from the start. If the journal is full, or its records weigh too much,
/// or there is no room for more output, the walker makes room. It forgets the older half of the steps, with what they
/// printed, and goes on.
#[derive(Drop)]
pub struct Walker<A: Allocator + Copy> {
    /// The session, and what of it is forgotten. It is open to those who follow bytes back over its steps.
    pub window: Window<A>,
    // how many steps are kept; a search may go further before it has to run the program anew
    pub(crate) limit: usize,
    // how much the records may weigh
    pub(crate) weight: u64,
    // why some were forgotten first; not said if the journal was full
    pub(crate) reason: Option<Forgetting>,
    // all input so far, which begins with the program
    input: Vec<u8, A>,
    // whether it has ended
    has_ended: bool,
    alloc: A,
}

impl<A: Allocator + Copy> Walker<A> {
    /// At the start of the program, which is the whole input so far. The records of the steps that are kept
    /// take some `keep` bytes at most.
    ///
    /// `Ending::Limit`: the program has more than 33,554,432 bytes. `Ending::Memory`: memory was refused.
    pub fn new(alloc: A, tape: &[u8], limit: usize, keep: u64, width: Width) -> Result<Self, Ending>
        requires some_records { 1 ≤ limit }
        requires most_records { limit ≤ JOURNAL_LIMIT }
        ensures made { OnOk result (length tape.now ≤ TAPE_LIMIT) }
        ensures refused { IfErr result (MayRefuseTape tape.now) }
        ensures stands { IfOk result (Stands (record { bytes = tape.now; ended = false }) width 0) }
    {
        let window = Window::over(alloc, tape, JOURNAL_LIMIT, width)?;
        let Ok(input) = Vec::from_slice(alloc, tape) else {
            return Err(Ending::Memory);
        };
        Ok(Walker {
            window,
            limit,
            weight: keep / WEIGHED_BYTES,
            reason: None,
            input,
            has_ended: false,
            alloc,
        })
    }

    /// At the start of the program again, with all input so far. Refused as `TooLong`, if that has more than 33,554,432
    /// bytes, and as `Memory`.
    pub(crate) fn window_anew(&self) -> Result<Window<A>, Refusal>
        ensures { IfOk result (IsOver (record { bytes = self.now.input.items; ended = self.now.has_ended })
            self.now.window.session.width 0) }
    {
        let input = self.input.as_slice();
        let mut window = match Window::over(self.alloc, input, JOURNAL_LIMIT, self.width()) {
            Ok(window) => window,
            Err(Ending::Limit) => return Err(Refusal::TooLong),
            Err(_) => return Err(Refusal::Memory),
        };
        if self.has_ended {
            window.session.end();
        }
        Ok(window)
    }

    /// The machine, which shows the state.
    pub fn machine(&self) -> &Machine<A> {
        self.window.session.machine()
    }

    /// How wide the program's numbers are.
    pub fn width(&self) -> Width
        ensures { result ≡ self.now.window.session.width }
    {
        self.window.session.width()
    }

    /// Where scanning stands.
    pub fn glance(&self) -> Glance {
        glance_at(self.window.session.machine())
    }

    /// What is seen of the machine around that place.
    pub fn sight(&self) -> Sight<'_, A> {
        sight_of(self.window.session.machine())
    }

    /// What is printed and not released.
    pub fn pending(&self) -> &[u8]
        ensures { result.now ≡ self.now.window.session.last.output }
    {
        self.window.session.pending()
    }

    /// How many steps one can go back over.
    pub fn steps_back(&self) -> usize {
        self.window.session.len()
    }

    /// The number of the step that comes next, counted from the start of the program.
    pub fn step(&self) -> u64
        ensures { result ≡ number_of_step self.now.window.forgotten (length self.now.window.session.earlier) }
    {
        let kept = self.window.session.len() as u64;
        self.window.forgotten.saturating_add(kept)
    }

    /// The first step that one can go back to.
    pub fn first_step(&self) -> u64
        ensures { result ≡ self.now.window.forgotten }
    {
        self.window.forgotten
    }

    /// How many bytes of the output were printed before the first step that one can go back to.
    pub fn released(&self) -> u64
        ensures { result ≡ self.now.window.released }
    {
        self.window.released
    }

    /// What is not read of the input.
    pub fn unread(&self) -> &[u8] {
        self.window.session.unread()
    }

    /// Why steps are forgotten.
    pub fn forgetting(&self) -> Forgetting {
        match self.reason {
            Some(reason) => reason,
            None if self.limit < JOURNAL_LIMIT => Forgetting::ForSteps,
            None => Forgetting::ForMostSteps,
        }
    }

    /// How far it has come.
    pub fn reach(&self) -> Reach {
        Reach {
            step: self.step(),
            first_step: self.window.forgotten,
            unread: self.unread().len() as u64,
            printed: self.released().saturating_add(self.pending().len() as u64),
        }
    }

    /// The doubts of the next step. The error is that memory was refused.
    pub fn doubts(&self, alloc: A) -> Result<Vec<Doubt, A>, AllocError> {
        self.window.session.doubts(alloc).map_err(|_| AllocError)
    }

    /// Adds a line to the input.
    /// Refused, with nothing changed, as `Closed` after the end of the input, as `TooLong` and as `Memory`.
    pub fn feed(&mut self, alloc: A, text: &[u8]) -> Result<(), Refusal>
        ensures { OnOk result ((input : Tape) (width : Width) (steps : ℕ) → Stands input width steps self.old →
            Stands (record input { bytes = input.bytes ++ (text.now ++ feed) }) width steps self.new) }
    {
        let Ok(line) = with_line_feed(alloc, text) else {
            return Err(Refusal::Memory);
        };
        let len = self.input.len();
        let Ok(()) = self.input.extend_from_slice(line.as_slice()) else {
            return Err(Refusal::Memory);
        };
        if let Err(refusal) = self.window.session.feed(line.as_slice()) {
            self.input.truncate(len);
            return Err(refusal);
        }
        Ok(())
    }

    /// Which byte of all input that of this number of the tape is, the first being number 0.
    pub fn input_number(&self, n: usize) -> u64 {
        let read = self.sight().position as u64;
        let there = read.saturating_add(self.unread().len() as u64);
        let fed = self.input.len() as u64;
        fed.saturating_sub(there).saturating_add(n as u64)
    }

    /// How many items the form of this name has; 0 if there is none.
    pub fn form_len(&self, name: &[u8]) -> usize {
        self.sight().store.get(name).map_or(0, |form| form.len())
    }

    /// A copy of an argument of the function that was begun last; null if there is none. The error is that memory was
    /// refused.
    pub fn argument(&self, alloc: A, number: usize) -> Result<Vec<u8, A>, AllocError> {
        match self.sight().begun {
            Some((_, arguments)) => Ok(Vec::from_slice(alloc, arguments.get(number))?),
            None => Ok(Vec::new(alloc)),
        }
    }

    /// Ends the input.
    pub fn end_input(&mut self)
        ensures { (input : Tape) (width : Width) (steps : ℕ) → Stands input width steps self.old →
            Stands (record input { ended = true }) width steps self.new }
    {
        self.has_ended = true;
        self.window.session.end();
    }

    /// Goes forward by so many steps, until one is refused, which is returned.
    pub fn forward(&mut self, most: u64) -> Option<Refusal>
        ensures { Moves (IsForward most result) self.old self.new }
    {
        self.go(None, most)
    }

    /// Goes forward to a goal, by so many steps at most, until one is refused, which is returned. Returns `NotMet` if
    /// the steps were taken and the goal was not met.
    pub fn forward_to(&mut self, aim: Aim<'_>, most: u64) -> Option<Refusal>
        ensures moved { Moves (IsTowards most) self.old self.new }
        ensures met { result ≡ None → goal_of_aim aim.entry self.new.window.session.last ≡ true }
    {
        self.go(Some(aim), most)
    }

    /// Goes to this step, forward or back, until a step is refused, which is returned.
    pub fn go_to(&mut self, step: u64) -> Option<Refusal>
        ensures { Moves (IsTo step result) self.old self.new }
    {
        let now = self.step();
        if step < now {
            self.back(now - step)
        } else {
            self.forward(step - now)
        }
    }

    /// Goes forward as far as no step has to be forgotten for it, or until one is refused, which is returned.
    pub fn look_ahead(&mut self) -> Option<Refusal>
        ensures { Moves (λ steps after. steps ≤ after) self.old self.new }
    {
        let room = self.room();
        walk_on(&mut self.window.session, None, room, self.weight).why
    }

    // Goes forward, to a goal if there is one, walk by walk: after each that ended for want of room it makes room.
    fn go(&mut self, aim: Option<Aim<'_>>, most: u64) -> Option<Refusal>
        ensures moved { Moves (IsTowards most) self.old self.new }
        ensures all { aim.entry ≡ None → Moves (IsForward most result) self.old self.new }
        ensures met { result ≡ None → MeetsAim aim.entry self.new.window.session.last }
    {
        let mut left = most;
        while left > 0 {
            self.make_room();
            // There is room for a step now.
            let most = self.room().max(1).min(left);
            let walk = walk_on(&mut self.window.session, aim, most, self.weight);
            if !self.goes_on(walk, aim.is_some()) {
                return walk.why;
            }
            left = left.saturating_sub(walk.done);
        }
        match aim {
            None => None,
            Some(_) => Some(Refusal::NotMet),
        }
    }

    // How many steps more may be kept.
    fn room(&self) -> u64 {
        self.limit.saturating_sub(self.window.session.len()) as u64
    }

    // Whether a walk goes on that has ended so, with a goal or without one: the journal was full or weighed enough,
    // there is room for the output now, or some steps of a search were taken.
    fn goes_on(&mut self, walk: Walk, has_aim: bool) -> bool
        ensures moved { Moves (λ steps after. after ≡ steps) self.old self.new }
        ensures ended { walk.why ≡ None → (result ≡ not has_aim) × (self.new ≡ self.old) }

        // If it goes on after a refusal, the walk took a step, or fewer steps are kept now.
        ensures less { result ≡ true → (walk.why ≡ None) ⊎ (length self.new.window.session.earlier
            < length self.old.window.session.earlier + walk.done) }
    {
        match walk.why {
            None => !has_aim,
            Some(Refusal::NotMet) => has_aim && walk.done > 0,
            Some(Refusal::JournalFull) => walk.done > 0,
            Some(Refusal::TooLong) => self.make_output_room(),
            _ => false,
        }
    }

    /// Goes back over so many steps, or all that there are; the refusal is `AtStart`.
    pub fn back(&mut self, steps: u64) -> Option<Refusal>
        ensures { Moves (IsBackward steps result) self.old self.new }
    {
        self.window.session.back(steps).why
    }

    /// Goes back to a goal, and forward again if it is not met on the way back: then `NotMet` is returned. If a step
    /// was refused on the way forward again, the walker stands there, and that refusal is returned.
    pub fn return_to(&mut self, aim: Aim<'_>) -> Option<Refusal>
        ensures { Moves (IsReturned result) self.old self.new }
    {
        refusal_of(self.window.session.return_to(goal_for(aim)))
    }

    /// Goes back to the call that changed the form of this name last, as `return_to` does. `Memory` also if there is
    /// none for a copy of the form, and then it does not move.
    pub fn return_to_change(&mut self, name: &[u8]) -> Option<Refusal>
        ensures { Moves (IsReturned result) self.old self.new }
    {
        let copy = self.sight().store.get(name).map(|form| form.copy());
        let Ok(form) = copy.transpose() else {
            return Some(Refusal::Memory);
        };
        refusal_of(self.window.session.return_to(Goal::OtherForm(name, &form)))
    }

    /// Forgets all but the last steps, so many as are kept.
    pub fn forget_surplus(&mut self)
        ensures { Moves (λ steps after. after ≡ steps) self.old self.new }
    {
        if self.window.session.len() <= self.limit {
            return;
        }
        self.window.keep_steps(self.limit);
    }

    // Forgets the older half of the steps that are kept, if there are enough.
    fn make_step_room(&mut self)
        ensures moved { Moves (λ steps after. after ≡ steps) self.old self.new }
        ensures kept { length self.new.window.session.earlier ≤ length self.old.window.session.earlier }
    {
        if self.window.session.len() < self.limit {
            return;
        }
        self.window.keep_steps(self.limit / 2);
    }

    // The same, and as often as their records weigh too much.
    fn make_room(&mut self)
        ensures moved { Moves (λ steps after. after ≡ steps) self.old self.new }
        ensures kept { length self.new.window.session.earlier ≤ length self.old.window.session.earlier }
    {
        self.make_step_room();
        for _turn in 0..usize::BITS {
            if !self.window.lighten(self.weight) {
                return;
            }
            self.reason = Some(self.reason.unwrap_or(Forgetting::ForMemory));
        }
    }

    // Forgets the older half of the journal if that is why the next step is refused: what it prints has no room.
    // Whether it did; it may take several times, until the output of the steps that are left is short enough.
    fn make_output_room(&mut self) -> bool
        ensures moved { Moves (λ steps after. after ≡ steps) self.old self.new }
        ensures less { result ≡ true →
            length self.new.window.session.earlier < length self.old.window.session.earlier }
    {
        let len = self.window.session.len();
        if len == 0 || !lacks_output_room(self.window.session.machine()) {
            return false;
        }
        self.window.keep_steps(len / 2);
        self.reason = Some(self.reason.unwrap_or(Forgetting::ForOutput));
        true
    }
}

// The functions over a session here promise little of it, so that whoever calls them has few of its
// clauses in his proof.

// A walk forward by so many steps at most, towards a goal if there is one. It stops also if the records weigh more than
// this.
fn walk_on<A: Allocator + Copy>(
    session: &mut Session<A>,
    aim: Option<Aim<'_>>,
    most: u64,
    weight: u64,
) -> Walk
    ensures within { result.done ≤ most }
    ensures some { result.why ≡ None → 0 < most → 0 < result.done }
    ensures walked { repeated Step result.done session.old ≡ Some session.new }
    ensures met { result.why ≡ None → MeetsAim aim.entry session.new.last }
{
    match aim {
        Some(aim) => session.forward_to_within(goal_for(aim), most, weight),
        None => session.forward_within(most, weight),
    }
}

// Why a walk back did not meet its goal.
fn refusal_of(outcome: Return) -> Option<Refusal>
    ensures { result ≡ refusal_said outcome }
{
    match outcome {
        Return::Met(_) => None,
        Return::NotMet => Some(Refusal::NotMet),
        Return::Stopped { left: _, why } => Some(why),
    }
}

// A text as a line.
fn with_line_feed<A: Allocator + Copy>(alloc: A, text: &[u8]) -> Result<Vec<u8, A>, AllocError>
    ensures { IfOk result (λ line. line.items ≡ text.now ++ feed) }
{
    let mut line = Vec::from_slice(alloc, text)?;
    line.push(LINE_FEED)?;
    Ok(line)
}
