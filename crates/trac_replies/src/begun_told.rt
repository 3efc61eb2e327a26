//! The begun calls, and where each was written.

use crate::telling::{LINE_COUNT, Telling};
use crate::walks::Walks;
use std::alloc::{AllocError, Allocator};
use trac_follow_step::Place;
use trac_person_lines::{Stop, begun_line, left_out_into, origin_into};

// Of many so many of the outermost are shown, and of the innermost as many as there are lines for.
const OUTER_COUNT: usize = 8;

const INNER_COUNT: usize = LINE_COUNT - OUTER_COUNT - 1;

impl<W: Walks<A>, A: Allocator + Copy> Telling<'_, W, A> {
    /// A line for each begun call, the outermost first, at most 30, and how many are left out: the call, and where its
    /// name was written, as far as the walk can tell. For that it goes back, and forward again to where it was. If a
    /// step is refused there, for memory alone, the lines end, and it says why. The error is that memory was refused,
    /// here and below.
    pub(crate) fn begun_calls_into(&mut self) -> Result<(), AllocError> {
        let depth = self.walker.glance().depth;
        if depth == 0 {
            return self.stop(Stop::Outside);
        }
        let inner = if depth > LINE_COUNT {
            self.begun_from(0, OUTER_COUNT, depth)?;
            left_out_into(self.alloc, depth - OUTER_COUNT - INNER_COUNT, &mut self.out)?;
            depth - INNER_COUNT
        } else {
            0
        };
        self.begun_from(inner, depth, depth)
    }

    // The same of those from one number up to another, of so many.
    fn begun_from(&mut self, from: usize, to: usize, depth: usize) -> Result<(), AllocError> {
        for number in from..to {
            if let Some(stop) = self.begun_call_into(number, depth)? {
                return self.stay(stop);
            }
        }
        Ok(())
    }

    // A line for the begun call of this number, of so many. Returns what was refused on the way there, if anything.
    fn begun_call_into(&mut self, number: usize, depth: usize) -> Result<Option<Stop>, AllocError> {
        let is_innermost = number.saturating_add(1) == depth;
        let mut line = begun_line(self.alloc, self.walker.machine(), number, is_innermost);
        let name = Place::Argument {
            function: number,
            argument: 0,
            byte: 0,
        };
        match self.written(name)? {
            Ok(written) => origin_into(written.origin, written.source, &mut line),
            Err(Stop::Idle) => line.say(b"the idle program's"),
            Err(Stop::NoName) => line.say(b"it has no name yet"),
            Err(stop) => return Ok(Some(stop)),
        }
        line.end_into(&mut self.out)?;
        Ok(None)
    }
}
