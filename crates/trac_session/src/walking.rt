//! Walks over several steps.
ghost use Rattle.std.specs.Prelude.{◌≡◌, ◌<◌, ◌≤◌, ◌&&◌, Some, false, length, max, nat_lt, true, ℕ};
ghost use Rattle.trac_rules.specs.Session.{PlainSession, Step, Back, Answers, IsWalk, no_goal, repeated};
ghost use Rattle.trac_rules.specs.State.{State};
ghost use Rattle.trac_rules.specs.Weights.{weights_from};
ghost use Rattle.trac_session.specs.Directions.{IsForward, command_towards, weight_of};
ghost use Rattle.trac_session.specs.Goals.{IsSearch, goal_at, goal_of, is_call_of, outcome};
ghost use Rattle.trac_session.specs.Replies.{reply_of};
ghost use Rattle.trac_session.specs.Returns.{IsReturn};
ghost use Rattle.trac_session.specs.Runs.{HasNoPlain, IsAsked, IsQuiet};
ghost use Rattle.trac_session.specs.Within.{IsHeavy, IsLight, IsSearchWithin, IsWalkUnder, IsWalkWithin};

use crate::goal::{Goal, is_met};
use crate::session::Session;
use crate::walk::{Return, Walk};
use std::alloc::Allocator;
use trac_rules::refusal::Refusal;

// Which way a walk goes.
#[derive(Clone, Copy)]
enum Direction {
    // until the records weigh more than this, if a weight is given
    Forward(Option<u64>),
    Backward,
}

// How many of so many steps may be passed at once: all of them if no state before a step that moves a byte meets the
// goal, or if there is none. Else one.
#[inline(always)]
fn at_once<A: Allocator + Copy>(goal: Option<Goal<'_, A>>, left: u64) -> u64
    ensures most { result ≤ left }
    ensures some { 0 < left → 0 < result }
    ensures quiet { 1 < result → (s : State) → IsQuiet s → goal_at goal.entry s ≡ false }
{
    match goal {
        Some(goal) if !goal.is_never_met_quietly() => left.min(1),
        _ => left,
    }
}

impl<A: Allocator + Copy> Session<A> {
    // Takes one step this way. The loop of a walk has this inlined, with the most frequent rules of scanning, and calls
    // the way back.
    #[inline(always)]
    fn go(&mut self, direction: Direction) -> Result<(), Refusal>
        ensures { Answers (command_towards direction) self.old (reply_of result) self.new }
    {
        match direction {
            Direction::Forward(_) => self.step(),
            Direction::Backward => self.step_back(),
        }
    }

    // Goes this way over bytes that a step each moves, at most so many, all at once. Returns how many steps these are.
    #[inline(always)]
    fn pass(&mut self, direction: Direction, most: u64) -> u64
        ensures passed { repeated (command_towards direction) result self.old ≡ Some self.new }
        ensures most { result ≤ most }
        ensures quiet { (k : ℕ) → (p : PlainSession) → 0 < k → k < result →
            repeated (command_towards direction) k self.old ≡ Some p → IsQuiet p.last }
        ensures end { IsForward direction → result < most → HasNoPlain self.new }
        ensures weight { IsForward direction → weights_from self.new.earlier ≡ weights_from self.old.earlier }
    {
        // Read for what holds of a session: its states are steps of one another, so that a step that moved a byte does
        // nothing else.
        let _limit = self.limit;
        match direction {
            Direction::Forward(_) => self.pass_plain(most),
            Direction::Backward => self.pass_back(most),
        }
    }

    // Whether the session shows a state that meets the goal, if there is one, after so many steps: no goal is met by
    // standing still.
    #[inline(always)]
    fn has_met(&self, goal: Option<Goal<'_, A>>, steps: u64) -> bool
        ensures { result ≡ (nat_lt 0 steps && goal_at goal.entry self.now.last) }
    {
        steps > 0
            && match goal {
                Some(goal) => self.meets(&goal),
                None => false,
            }
    }

    // Whether the records weigh too much to go further this way.
    #[inline(always)]
    fn is_heavy(&self, direction: Direction) -> bool
        ensures heavy { result ≡ true → IsHeavy (weight_of direction) self.now.earlier }
        ensures light { result ≡ false → IsLight (weight_of direction) self.now.earlier }
    {
        match direction {
            Direction::Forward(Some(most)) => self.weight() > most,
            _ => false,
        }
    }

    // How many of `n` steps may be taken: one alone if the records weigh too much already.
    #[inline(always)]
    fn steps_within(&self, direction: Direction, n: u64) -> u64
        ensures most { result ≤ n }
        ensures heavy { result < n → (0 < result) × IsHeavy (weight_of direction) self.now.earlier }
        ensures light { 1 < result → IsLight (weight_of direction) self.now.earlier }
    {
        if self.is_heavy(direction) {
            n.min(1)
        } else {
            n
        }
    }

    // Goes this way by up to `n` steps, until one is refused, which the walk returns, or the goal is met, if there is
    // one, or the records weigh too much. Plain bytes are passed at once, so for none of them memory is refused.
    //
    // This is the loop of every walk but that of a run, inlined into each: so none tests for what it has not got.
    #[inline(always)]
    fn walk<'s>(&'s mut self, direction: Direction, goal: Option<Goal<'s, A>>, n: u64) -> Walk
        ensures walk { IsWalkUnder (weight_of direction) (command_towards direction) (goal_at goal.entry) n self.old
            result.done result.why self.new }
        ensures asked { IsAsked result.why self.new.last }
    {
        let most = self.steps_within(direction, n);
        let mut done = 0;
        loop {
            let left = at_once(goal, most - done);
            let passed = self.pass(direction, left);
            done += passed;
            if self.has_met(goal, passed) {
                return Walk { done, why: None };
            }
            if passed == left {
                if done == most {
                    return Walk { done, why: None };
                }
                continue;
            }
            if let Err(refusal) = self.go(direction) {
                return Walk::refused(done, refusal);
            }
            done += 1;
            if self.has_met(goal, 1) {
                return Walk { done, why: None };
            }
            if self.is_heavy(direction) {
                return Walk { done, why: None };
            }
        }
    }

    /// Whether the session shows a state that meets the goal. It takes no memory.
    pub fn meets(&self, goal: &Goal<'_, A>) -> bool
        ensures { result ≡ goal_of goal.now self.now.last }
    {
        is_met(self.machine(), goal)
    }

    // The same walk, which returns `NotMet` if no refusal ended it and its goal is not met.
    fn searched(&self, goal: &Goal<'_, A>, walk: Walk) -> Walk
        ensures done { result.done ≡ walk.done }
        ensures why { result.why ≡ outcome (nat_lt 0 walk.done && goal_of goal.now self.now.last) walk.why }
    {
        if walk.why.is_some() || walk.done > 0 && self.meets(goal) {
            return walk;
        }
        Walk {
            done: walk.done,
            why: Some(Refusal::NotMet),
        }
    }

    /// Goes forward by up to `n` steps, until one is refused: as `JournalFull`, `NeedInput`, `Ended`, `TooLong` or
    /// `Memory`, which the walk returns. For a step that moves a plain byte, memory is never refused.
    pub fn forward(&mut self, n: u64) -> Walk
        ensures walk { IsWalk Step no_goal n self.old result.done result.why self.new }
        ensures asked { IsAsked result.why self.new.last }
    {
        self.walk(Direction::Forward(None), None, n)
    }

    /// Goes forward as `forward` does, and stops also after a step after which the records weigh more than `most`
    /// (`Session::weight`). Then no refusal is answered, and fewer than `n` steps may be done. So whoever never goes
    /// back can commit before the records hold much memory.
    // Inlined into what else a run does, it takes more instructions.
    #[inline(never)]
    pub fn forward_within(&mut self, n: u64, most: u64) -> Walk
        ensures { IsWalkWithin most no_goal n self.old result.done result.why self.new }
    {
        // A run takes its steps here, in a loop of its own that tries a step first: the loop of the other walks takes
        // it one instruction in a hundred more.
        let mut done = 0;
        while done < n {
            if let Err(refusal) = self.step() {
                return Walk::refused(done, refusal);
            }
            done += 1;
            if self.weight() > most {
                return Walk { done, why: None };
            }
            done += self.pass_plain(n - done);
        }
        Walk { done, why: None }
    }

    /// Goes back over up to `n` steps, until there is no record left, which the walk returns as `AtStart`. It takes no
    /// memory.
    pub fn back(&mut self, n: u64) -> Walk
        ensures { IsWalk Back no_goal n self.old result.done result.why self.new }
    {
        self.walk(Direction::Backward, None, n)
    }

    /// Goes forward by up to `n` steps, until the state meets the goal. That it did so already, before any step, does
    /// not count. A refused step ends the walk as in `forward`. If `n` steps were taken and the goal is not met, the
    /// walk returns `NotMet`, also if `n` is 0.
    pub fn forward_to(&mut self, goal: Goal<'_, A>, n: u64) -> Walk
        ensures search { IsSearch Step (goal_of goal.entry) n self.old result.done result.why self.new }
        ensures asked { IsAsked result.why self.new.last }
    {
        let walk = self.walk(Direction::Forward(None), Some(goal), n);
        self.searched(&goal, walk)
    }

    /// Goes forward to a goal as `forward_to` does, and stops also after a step after which the records weigh more than
    /// `most` (`Session::weight`). Then it returns `NotMet` too if the goal is not met, and fewer than `n` steps may be
    /// done. So a search that never goes back further can commit before the records hold much memory.
    pub fn forward_to_within(&mut self, goal: Goal<'_, A>, n: u64, most: u64) -> Walk
        ensures search { IsSearchWithin most (goal_of goal.entry) n self.old result.done result.why self.new }
        ensures asked { IsAsked result.why self.new.last }
    {
        let walk = self.walk(Direction::Forward(Some(most)), Some(goal), n);
        self.searched(&goal, walk)
    }

    /// Goes back over steps, until the state meets the goal. That it did so already, before any step back, does not
    /// count; the first state is tested too. If all steps are gone back over and the goal is not met, the walk returns
    /// `NotMet`. If there is no step to go back over, it returns `AtStart`. It takes no memory.
    pub fn back_to(&mut self, goal: Goal<'_, A>) -> Walk
        ensures { IsSearch Back (goal_of goal.entry) (max 1 (length self.old.earlier)) self.old result.done
            result.why self.new }
    {
        // The walk may go back over all steps that there are. If there are none, it tries one, which is refused.
        let walk = self.walk(Direction::Backward, Some(goal), self.len().max(1) as u64);
        self.searched(&goal, walk)
    }

    /// Goes back as `back_to` does. If no earlier state meets the goal, it goes forward again, by as many steps. These
    /// give the same states, so the session shows those that it had. Only if memory is refused for one of these steps
    /// does it stand before that one. To move a plain byte takes none, nor does the way back.
    pub fn return_to(&mut self, goal: Goal<'_, A>) -> Return
        ensures { IsReturn (goal_of goal.entry) self.old result self.new }
    {
        // For what it says: the states are steps of one another, and so are taken again.
        let _machine = self.machine();
        let back = self.back_to(goal);
        if back.why.is_none() {
            return Return::Met(back.done);
        }
        let again = self.forward(back.done);
        match again.why {
            None => Return::NotMet,
            Some(why) => Return::Stopped {
                left: back.done - again.done,
                why,
            },
        }
    }

    /// Goes forward by up to `n` steps, until the next step would perform a function of this name, which is compared
    /// byte for byte. That it would do so already, before any step, does not count. A refused step ends the walk as in
    /// `forward`. If `n` steps were taken and the name was not met, the walk returns `NotMet`, also if `n` is 0.
    pub fn until(&mut self, name: &[u8], n: u64) -> Walk
        ensures search { IsSearch Step (is_call_of name.now) n self.old result.done result.why self.new }
        ensures asked { IsAsked result.why self.new.last }
    {
        self.forward_to(Goal::Call(&[name]), n)
    }

    /// Goes back over steps, until the next step would perform a function of this name, which is compared byte for
    /// byte. That it would do so already, before any step back, does not count; the first state is tested too. If all
    /// steps are gone back over and the name was not met, the walk returns `NotMet`. If there is no step to go back
    /// over, it returns `AtStart`. It takes no memory.
    pub fn back_until(&mut self, name: &[u8]) -> Walk
        ensures { IsSearch Back (is_call_of name.now) (max 1 (length self.old.earlier)) self.old result.done
            result.why self.new }
    {
        self.back_to(Goal::Call(&[name]))
    }
}
