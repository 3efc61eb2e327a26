//! A program that runs until it is to stop, forwards or backwards. It runs in pieces, so that the editor can be told
//! of one that takes long.

use crate::breaking::Seen;
use crate::breakpoints::Breakpoints;
use crate::debuggee::Debuggee;
use crate::stopping::Halt;
use std::alloc::{AllocError, Allocator};
use trac_moves::Aim;
use trac_session::Refusal;

/// A program runs by so many steps without a stop.
pub(crate) const BUDGET: u64 = 1_000_000;

/// A piece of a run takes about so many steps, with those gone back over to find out where calls were written.
const PIECE: u64 = 1_000_000;

/// Which way a program runs.
#[derive(Clone, Copy, Debug, PartialEq, Eq)]
pub(crate) enum Way {
    /// Forwards.
    On,
    /// Backwards.
    Back,
}

/// A run.
#[derive(Drop)]
pub(crate) struct Run<A: Allocator + Copy> {
    /// Which way it goes.
    pub(crate) way: Way,
    seen: Seen<A>,
    // on the way back, the last step before its start that stops as none of a call does, and why
    last: Option<(u64, Halt)>,
    // the step that came next when it began
    start: u64,
}

impl<A: Allocator + Copy> Debuggee<A> {
    /// A run from here. The error is that memory was refused to keep what is watched, here and below.
    pub(crate) fn run(
        &mut self,
        way: Way,
        breakpoints: &Breakpoints<A>,
    ) -> Result<Run<A>, AllocError> {
        self.followed = 0;
        let last = match way {
            Way::On => None,
            Way::Back => self.last_between(breakpoints),
        };
        Ok(Run {
            way,
            seen: self.seen(breakpoints)?,
            last,
            start: self.walker.step(),
        })
    }

    /// How many steps a run took so far, with those that were gone back over.
    pub(crate) fn work(&self, run: &Run<A>) -> u64 {
        let steps = self.walker.step().abs_diff(run.start);
        steps.saturating_add(self.followed)
    }

    /// Goes on with a run by a piece. Returns why the program is to stop, if it is.
    pub(crate) fn run_on(
        &mut self,
        run: &mut Run<A>,
        breakpoints: &mut Breakpoints<A>,
    ) -> Result<Option<Halt>, AllocError> {
        let enough = self.work(run).saturating_add(PIECE);
        for _ in 0..PIECE {
            let halt = match run.way {
                Way::On => self.to_next_call(run, breakpoints)?,
                Way::Back => self.to_last_call(run, breakpoints)?,
            };
            if halt.is_some() || self.work(run) > enough {
                return Ok(halt);
            }
        }
        Ok(None)
    }

    // Goes forward to the next call, or by as many steps as are left.
    fn to_next_call(
        &mut self,
        run: &mut Run<A>,
        breakpoints: &mut Breakpoints<A>,
    ) -> Result<Option<Halt>, AllocError> {
        let here = self.walker.step();
        let left = BUDGET.saturating_sub(here.saturating_sub(run.start));
        if left == 0 {
            return Ok(Some(Halt::Spent));
        }
        if breakpoints.is_empty() {
            return Ok(self.walker.forward(left).map(Halt::Refused));
        }
        let stopped = self.walker.forward_to(Aim::OwnCall, left);
        if let Some(halt) = self.passed(breakpoints, &run.seen, here) {
            return Ok(Some(halt));
        }
        match stopped {
            None => self.stop_here(breakpoints, &mut run.seen),
            Some(Refusal::NotMet) => Ok(None),
            Some(refusal) => Ok(Some(Halt::Refused(refusal))),
        }
    }

    // What stops between two calls, of which the walker has passed one at this step: it goes back to it.
    fn passed(&mut self, breakpoints: &Breakpoints<A>, seen: &Seen<A>, step: u64) -> Option<Halt> {
        let is_doubtful = breakpoints.doubts && self.is_doubtful_since(step);
        if let Some((number, id)) = breakpoints.byte_between(seen.printed, self.printed(), true) {
            self.return_to_byte(number);
            let _ = self.walker.forward(1);
            return Some(Halt::Change(id));
        }
        is_doubtful.then_some(Halt::Doubt)
    }

    // Goes back to the call that printed the byte of this number of the output, the first being number 1.
    fn return_to_byte(&mut self, number: u64) {
        let before = number
            .saturating_sub(1)
            .saturating_sub(self.walker.released());
        let _ = self.walker.return_to(Aim::Unprinted(before as usize));
    }

    // Whether there was a doubt after this step, to which the walker goes back then.
    fn is_doubtful_since(&mut self, step: u64) -> bool {
        let steps = self.walker.step().saturating_sub(step);
        let _ = self.walker.back(steps);
        let aim = Aim::Doubtful(self.walker.width());
        steps > 0 && self.walker.forward_to(aim, steps).is_none()
    }

    // Goes back to the call before.
    fn to_last_call(
        &mut self,
        run: &mut Run<A>,
        breakpoints: &mut Breakpoints<A>,
    ) -> Result<Option<Halt>, AllocError> {
        let met = !breakpoints.is_empty() && self.walker.return_to(Aim::OwnCall).is_none();
        if !met {
            let _ = self.walker.back(u64::MAX);
        }
        if let Some((step, halt)) = run.last
            && self.walker.step() <= step
        {
            let _ = self.walker.go_to(step);
            return Ok(Some(halt));
        }
        if !met {
            return Ok(Some(Halt::First));
        }
        self.stop_here(breakpoints, &mut run.seen)
    }

    // The last step before here that is doubtful or printed a byte that is watched, and why it stops.
    fn last_between(&mut self, breakpoints: &Breakpoints<A>) -> Option<(u64, Halt)> {
        let doubtful = if breakpoints.doubts {
            self.last_doubt()
        } else {
            None
        };
        let printing = self.last_byte(breakpoints);
        match (doubtful, printing) {
            (Some(step), Some((other, id))) if other > step => Some((other, Halt::Change(id))),
            (Some(step), _) => Some((step, Halt::Doubt)),
            (None, Some((step, id))) => Some((step, Halt::Change(id))),
            (None, None) => None,
        }
    }

    // The last step before here that printed a byte that is watched, and its breakpoint.
    fn last_byte(&mut self, breakpoints: &Breakpoints<A>) -> Option<(u64, u64)> {
        let released = self.walker.released();
        let (number, id) = breakpoints.byte_between(released, self.printed(), false)?;
        let here = self.walker.step();
        self.return_to_byte(number);
        let step = self.walker.step();
        let _ = self.walker.go_to(here);
        (step < here).then_some((step, id))
    }

    // The last doubtful step before here, if one is kept.
    fn last_doubt(&mut self) -> Option<u64> {
        let here = self.walker.step();
        let aim = Aim::Doubtful(self.walker.width());
        let met = self.walker.return_to(aim).is_none();
        let step = self.walker.step();
        let _ = self.walker.go_to(here);
        met.then_some(step)
    }
}
