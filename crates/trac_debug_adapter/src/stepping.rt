//! Moves over a call, or over a step of the rules.

use crate::debuggee::Debuggee;
use crate::running::BUDGET;
use crate::stopping::{Halt, halt_of};
use std::alloc::Allocator;
use trac_moves::Aim;
use trac_session::Goal;

impl<A: Allocator + Copy> Debuggee<A> {
    /// Goes forward to the next call of the program's own.
    pub(crate) fn step_in(&mut self) -> Halt {
        match self.walker.forward_to(Aim::OwnCall, BUDGET) {
            None => Halt::Step,
            Some(refusal) => halt_of(refusal),
        }
    }

    /// Goes forward by one step of the rules.
    pub(crate) fn step_once(&mut self) -> Halt {
        match self.walker.forward(1) {
            None => Halt::Step,
            Some(refusal) => halt_of(refusal),
        }
    }

    /// Goes forward over the call that comes next, and its value, to the next call after that.
    pub(crate) fn step_over(&mut self) -> Halt {
        let here = self.walker.glance();
        if !here.performs {
            return self.step_in();
        }
        let rest = here.rest.saturating_sub(1);
        if let Some(refusal) = self.walker.forward(1) {
            return halt_of(refusal);
        }
        if self.walker.glance().rest > rest
            && let Some(refusal) = self.walker.forward_to(Aim::Rest(rest), BUDGET)
        {
            return halt_of(refusal);
        }
        if self.walker.window.session.meets(&Goal::OwnCall) {
            return Halt::Step;
        }
        self.step_in()
    }

    /// Goes forward to the end of the call that is begun around the one that comes next.
    pub(crate) fn step_out(&mut self) -> Halt {
        let here = self.walker.glance();
        let inside = here.depth.saturating_sub(usize::from(here.performs));
        if inside == 0 {
            return self.step_in();
        }
        match self.walker.forward_to(Aim::End(inside), BUDGET) {
            None => Halt::Step,
            Some(refusal) => halt_of(refusal),
        }
    }

    /// Goes back to the last call of the program's own.
    pub(crate) fn step_back(&mut self) -> Halt {
        match self.walker.return_to(Aim::OwnCall) {
            None => Halt::Step,
            Some(_) => {
                let _ = self.walker.back(u64::MAX);
                Halt::First
            }
        }
    }

    /// Goes back over one step of the rules.
    pub(crate) fn step_back_once(&mut self) -> Halt {
        match self.walker.back(1) {
            None => Halt::Step,
            Some(refusal) => halt_of(refusal),
        }
    }
}
