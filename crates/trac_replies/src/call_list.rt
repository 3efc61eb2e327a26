//! The last calls with their values.

use crate::telling::Telling;
use crate::walks::Walks;
use std::alloc::{AllocError, Allocator};
use trac_person_lines::{Before, Gave, ScreenLine, Stop, beneath_into, call_into, outcome_into};
use trac_rules::refusal::Refusal;
use trac_sight::takes_default;

impl<W: Walks<A>, A: Allocator + Copy> Telling<'_, W, A> {
    /// A line for each of the last calls of the program's own, the earliest first. It has the number of the step of the
    /// call, the call, and its value, cut to the screen unless they are wanted whole. It also says whether the value is
    /// its default argument. To find the calls it goes back, and then forward again to where it was. If a step is
    /// refused on the way, for memory alone, the lines end there, and it says why. If a step forward again is refused
    /// too, it stays there. Last it says where the walk stands. The error is that memory was refused for the lines, or
    /// to search a form for the text of `in`, here and below.
    pub(crate) fn calls_into(&mut self, count: u64, is_whole: bool) -> Result<(), AllocError> {
        let end = self.walker.step();
        // The numbers of the steps are freed before it says why: that takes memory too, which may be scarce.
        let met = {
            let mut steps = Vec::new(self.alloc);
            self.lines_into(count, is_whole, &mut steps)?
        };
        let left = end.saturating_sub(self.walker.step());
        let ahead = self.walker.forward(left);
        if let Some(refusal) = met.or(ahead) {
            self.stop(Stop::Refused(refusal))?;
        }
        self.stand()
    }

    // Goes back over so many calls, whose steps are put at the end of these, and forward again from each to the next,
    // with a line for it, until a step is refused.
    fn lines_into(
        &mut self,
        count: u64,
        is_whole: bool,
        steps: &mut Vec<u64, A>,
    ) -> Result<Option<Refusal>, AllocError> {
        let met = steps_into(&mut self.walker, count, steps)?;
        if met.is_some() {
            return Ok(met);
        }
        if steps.is_empty() {
            self.say(b"no call is met on the way back\n")?;
        }
        while let Some(step) = steps.pop() {
            let left = step.saturating_sub(self.walker.step());
            let stopped = self.walker.forward(left);
            if stopped.is_some() {
                return Ok(stopped);
            }
            self.line_into(is_whole)?;
        }
        Ok(None)
    }

    // A line for the call that is performed next, which is performed.
    fn line_into(&mut self, is_whole: bool) -> Result<(), AllocError> {
        let why = self.why()?;
        let (step, depth) = (self.walker.step(), self.walker.glance().depth);
        let mut call = line_of(self.alloc, is_whole);
        call_into(step, depth, &self.walker.sight(), &mut call);
        let before = before_call(&self.walker)?;
        let refused = self.walker.forward(1);
        let mut outcome = line_of(self.alloc, is_whole);
        let gave = outcome_into(before, refused, &self.walker.sight(), &mut outcome);
        let Some(why) = why else {
            return call.end_before(outcome, &mut self.out);
        };
        if !why.is_said_of(gave) {
            return call.end_before(outcome, &mut self.out);
        }
        let taken = outcome
            .columns()
            .saturating_add(2)
            .saturating_add(why.columns());
        if gave == Gave::Nothing && call.has_room(taken) {
            outcome.say(b": ");
            outcome.say(why.words());
            return call.end_before(outcome, &mut self.out);
        }
        call.end_before(outcome, &mut self.out)?;
        let mut line = line_of(self.alloc, is_whole);
        beneath_into(step, depth, &mut line);
        line.say(why.words());
        line.end_into(&mut self.out)
    }
}

// What is kept of the call that is performed next, to tell its value from what stands around it.
fn before_call<W: Walks<A>, A: Allocator + Copy>(walker: &W) -> Result<Before, AllocError> {
    let sight = walker.sight();
    match takes_default(&sight, walker.width()) {
        Ok(is_default) => Ok(Before::of(&sight, is_default)),
        Err(_) => Err(AllocError),
    }
}

// Goes back over so many calls, or all that there are, and puts the numbers of their steps at the end of these, the
// latest first. Returns why a step was refused on the way forward again from where no more is met, if one was.
fn steps_into<W: Walks<A>, A: Allocator + Copy>(
    walker: &mut W,
    count: u64,
    steps: &mut Vec<u64, A>,
) -> Result<Option<Refusal>, AllocError> {
    for _ in 0..count {
        match walker.return_to_call() {
            None => steps.push(walker.step())?,
            Some(Refusal::NotMet) => return Ok(None),
            Some(refusal) => return Ok(Some(refusal)),
        }
    }
    Ok(None)
}

// An empty line, which is cut to the screen or not.
fn line_of<A: Allocator + Copy>(alloc: A, is_whole: bool) -> ScreenLine<A> {
    if is_whole {
        ScreenLine::uncut(alloc)
    } else {
        ScreenLine::new(alloc)
    }
}
