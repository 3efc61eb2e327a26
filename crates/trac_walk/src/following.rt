//! Ways of bytes back, as the replies ask for them.

use crate::tracing::traced;
use std::alloc::{AllocError, Allocator};
use trac_follow::{Place, Traced, Witness};
use trac_moves::Walker;
use trac_replies::End;
use trac_session::Machine;

// A witness of a byte's way of which nothing is said.
#[derive(Clone, Copy)]
struct Unsaid;

impl<A: Allocator + Copy> Witness<A> for Unsaid {
    fn passed(&mut self, _: &Machine<A>, _: u64, _: Place<'_>) -> Result<(), AllocError> {
        Ok(())
    }
}

// Where a byte stood in forms that calls gave it from, the latest first.
#[derive(Drop)]
struct InForms<A: Allocator + Copy> {
    // how many steps back each call is, and which item of its form that was
    items: Vec<(u64, usize), A>,
    // how many steps back the call is that was told of last
    latest: u64,
}

impl<A: Allocator + Copy> Witness<A> for InForms<A> {
    fn passed(&mut self, _: &Machine<A>, steps: u64, from: Place<'_>) -> Result<(), AllocError> {
        if let Place::Form(_, item) = from {
            self.items.push((self.latest, item))?;
        }
        self.latest = steps;
        Ok(())
    }
}

/// Goes back to where the byte at a place comes from, or the item of a form.
pub(crate) fn follow<A: Allocator + Copy>(
    alloc: A,
    walker: &mut Walker<A>,
    place: Place<'_>,
) -> End {
    let found = traced(alloc, walker, place, &mut Unsaid);
    end_of(walker, found)
}

/// The same, with where it stood in forms that calls gave it from.
pub(crate) fn follow_in_forms<A: Allocator + Copy>(
    alloc: A,
    walker: &mut Walker<A>,
    place: Place<'_>,
) -> (Vec<(u64, usize), A>, End) {
    let mut forms = InForms {
        items: Vec::new(alloc),
        latest: 0,
    };
    let found = traced(alloc, walker, place, &mut forms);
    (forms.items, end_of(walker, found))
}

/// How a way ended, to which the walker has gone back.
pub(crate) fn end_of<A: Allocator + Copy>(walker: &Walker<A>, found: Traced) -> End {
    match found.end {
        trac_follow::End::Nothing => End::Nothing,
        trac_follow::End::Earlier => End::Earlier,
        trac_follow::End::Read(n) => End::Read(walker.input_number(n)),
        trac_follow::End::Made => End::Made,
        trac_follow::End::Untold => End::Untold,
        trac_follow::End::Memory => End::Memory,
    }
}
