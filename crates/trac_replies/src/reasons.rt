//! Why the call that comes next gives what it gives, in words.

use crate::telling::{REASON_COLUMN, Telling};
use crate::walks::Walks;
use std::alloc::{AllocError, Allocator};
use trac_follow_step::Place;
use trac_person_lines::{
    Gave, Lack, Reason, ScreenLine, Stop, are_plain, origin_into, reason_into, reason_of,
};
use trac_rules::refusal::Refusal;

/// Why a call gives what it gives.
#[derive(Drop)]
pub(crate) struct Why<A: Allocator + Copy> {
    // in words
    words: ScreenLine<A>,
    // whether the line of the call tells it too, if the call gives a value
    is_plain: bool,
    // the form that it speaks of, if that was left so by a call
    form: Option<Vec<u8, A>>,
    // the argument that is the name of nothing, if that is why
    misnamed: Option<usize>,
}

impl<A: Allocator + Copy> Why<A> {
    /// Whether it is said of a call that gave this.
    pub(crate) fn is_said_of(&self, gave: Gave) -> bool {
        match gave {
            Gave::Nothing | Gave::Default => true,
            Gave::Value => !self.is_plain,
            Gave::Refused => false,
        }
    }

    /// Its words.
    pub(crate) fn words(&self) -> &[u8] {
        self.words.bytes()
    }

    /// How many columns they take.
    pub(crate) fn columns(&self) -> usize {
        self.words.columns()
    }
}

impl<W: Walks<A>, A: Allocator + Copy> Telling<'_, W, A> {
    /// Why the call that the next step performs gives what it gives, if more is to be said of that than its line tells;
    /// and since which step, if the form is as a call left it. For that it goes back to this call, and forward again.
    /// The error is that memory was refused, here and below.
    pub(crate) fn why(&mut self) -> Result<Option<Why<A>>, AllocError> {
        match why_at(self.alloc, &self.walker)? {
            None => Ok(None),
            Some(why) => Ok(Some(self.with_since(why)?)),
        }
    }

    // The same with what is to be said of when the form was left so.
    fn with_since(&mut self, why: Why<A>) -> Result<Why<A>, AllocError> {
        let mut why = why;
        if let Some(name) = &why.form {
            since_into(self, name.as_slice(), &mut why.words)?;
            why.words.check()?;
        }
        Ok(why)
    }

    /// The same in a line of its own, if there is anything to say, and where the name was written that nothing has.
    pub(crate) fn why_into(&mut self) -> Result<(), AllocError> {
        let Some(why) = self.why()? else {
            return Ok(());
        };
        let mut line = ScreenLine::new(self.alloc);
        line.pad(REASON_COLUMN);
        line.say(why.words());
        if let Some(argument) = why.misnamed {
            self.misnamed_into(argument, &mut line)?;
        }
        line.end_into(&mut self.out)
    }

    // Puts where this argument of the innermost begun function was written at the end of a line, if that is known.
    fn misnamed_into(
        &mut self,
        argument: usize,
        line: &mut ScreenLine<A>,
    ) -> Result<(), AllocError> {
        let name = Place::Argument {
            function: self.walker.glance().depth.saturating_sub(1),
            argument,
            byte: 0,
        };
        match self.written(name)? {
            Ok(written) => {
                line.say(b": ");
                origin_into(written.origin, written.source, line);
                Ok(())
            }
            Err(Stop::Refused(_)) => Err(AllocError),
            Err(_) => Ok(()),
        }
    }

    /// Goes to this step, further on, says there why its call gives what it gives, and comes back.
    pub(crate) fn why_of_into(&mut self, step: u64) -> Result<(), AllocError> {
        let here = self.walker.step();
        if self.walker.go_to(step).is_some() {
            return Err(AllocError);
        }
        self.why_into()?;
        match self.walker.go_to(here) {
            None => Ok(()),
            Some(_) => Err(AllocError),
        }
    }
}

// Puts since which step the form of this name is as it is at the end of a line, and in which line that step's call was
// written, if this is known.
fn since_into<W: Walks<A>, A: Allocator + Copy>(
    telling: &mut Telling<'_, W, A>,
    name: &[u8],
    line: &mut ScreenLine<A>,
) -> Result<(), AllocError> {
    let start = telling.walker.step();
    match telling.walker.return_to_change(name) {
        None => {}
        Some(Refusal::NotMet) => return Ok(()),
        Some(_) => return Err(AllocError),
    }
    let step = telling.walker.step();
    line.say(b" since step ");
    line.count(step);
    if let Some(row) = telling.row_of_next()? {
        line.say(b" (line ");
        line.count(row);
        line.say(b")");
    }
    match telling.walker.forward(start.saturating_sub(step)) {
        None => Ok(()),
        Some(_) => Err(AllocError),
    }
}

// Why the call that the next step performs gives what it gives, without since when.
fn why_at<W: Walks<A>, A: Allocator + Copy>(
    alloc: A,
    walker: &W,
) -> Result<Option<Why<A>>, AllocError> {
    let sight = walker.sight();
    let Ok(found) = reason_of(&sight, walker.width()) else {
        return Err(AllocError);
    };
    match found {
        None => Ok(None),
        Some(reason) => Ok(Some(why_of(alloc, reason)?)),
    }
}

// What is kept of a reason.
fn why_of<A: Allocator + Copy>(alloc: A, reason: Reason<'_>) -> Result<Why<A>, AllocError> {
    let mut words = ScreenLine::uncut(alloc);
    reason_into(reason, &mut words);
    words.check()?;
    let form = match reason {
        Reason::OfForm(Lack::Empty | Lack::AtEnd | Lack::AtStart, name) => {
            Some(Vec::from_slice(alloc, name)?)
        }
        _ => None,
    };
    Ok(Why {
        words,
        is_plain: is_plain(reason),
        form,
        misnamed: misnamed(reason),
    })
}

// Whether the line of a call tells this too, if the call gives a value.
fn is_plain(reason: Reason<'_>) -> bool {
    match reason {
        Reason::Compared(_, first, second) => are_plain(first, second),
        _ => true,
    }
}

// Which argument is the name of nothing, if that is the reason.
fn misnamed(reason: Reason<'_>) -> Option<usize> {
    match reason {
        Reason::NoPrimitive([_, ..]) | Reason::FormUncalled([_, ..]) => Some(0),
        Reason::NoForm([_, ..]) => Some(1),
        _ => None,
    }
}
