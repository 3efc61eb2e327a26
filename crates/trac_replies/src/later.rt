//! Whether a text that was not printed so far is printed later.

use crate::telling::Telling;
use crate::walks::Walks;
use memchr::memmem;
use std::alloc::{AllocError, Allocator};
use trac_person_lines::{Later, Stop, later_into};
use trac_rules::refusal::Refusal;

impl<W: Walks<A>, A: Allocator + Copy> Telling<'_, W, A> {
    /// Says which step prints this text first, after where the walk stands, or up to which step none does. It looks
    /// ahead as far as it can without forgetting a step, and comes back. The error is that memory was refused for the
    /// line.
    pub(crate) fn printed_later_into(&mut self, text: &[u8]) -> Result<(), AllocError> {
        let start = self.walker.step();
        let later = later_than_here(&mut self.walker, text);
        let ahead = self.walker.step().saturating_sub(start);
        self.walker.back(ahead);
        match later {
            Ok(later) => later_into(self.alloc, later, &mut self.out),
            Err(refusal) => self.stop(Stop::Refused(refusal)),
        }
    }
}

// Goes ahead, and back to the step that prints a text first. The error is that memory was refused on the way.
fn later_than_here<W: Walks<A>, A: Allocator + Copy>(
    walker: &mut W,
    text: &[u8],
) -> Result<Later, Refusal> {
    if let Some(Refusal::Memory) = walker.look_ahead() {
        return Err(Refusal::Memory);
    }
    let Some(place) = memmem::find(walker.pending(), text) else {
        return Ok(Later::NotUpTo(walker.step()));
    };
    let last = place.saturating_add(text.len().saturating_sub(1));
    match walker.return_to_unprinted(last) {
        None => Ok(Later::By(walker.step())),
        Some(refusal) => Err(refusal),
    }
}
