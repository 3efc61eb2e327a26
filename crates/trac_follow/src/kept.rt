//! A place that is kept while a session goes back.
ghost use Rattle.std.specs.Prelude.{◌≡◌, true, IfOk, OnErr};
ghost use Rattle.trac_follow.specs.Kept.{kept_place};
ghost use Rattle.trac_follow_step.specs.Places.{is_in_storage, place_of};

use std::alloc::{AllocError, Allocator};
use trac_follow_step::Place;

/// A place in a state that borrows nothing from the machine: the name of its form is lent by the caller of the trace,
/// or is a copy.
#[derive(Drop)]
pub(crate) enum KeptPlace<'n, A: Allocator> {
    /// The place where the trace begins; or a place in no form, which needs no name.
    Lent(Place<'n>),
    /// An item of the form of this name.
    Form(Vec<u8, A>, usize),
    /// A block, and an item of the form of this name that it holds.
    Held(usize, Vec<u8, A>, usize),
}

impl<'n, A: Allocator> KeptPlace<'n, A> {
    /// This place. The error is that memory was refused for the name of its form.
    pub(crate) fn of(alloc: A, place: Place<'_>) -> Result<Self, AllocError>
        ensures kept { IfOk result (λ kept. kept_place kept ≡ place_of place.entry) }
        ensures stored { OnErr result (is_in_storage (place_of place.entry) ≡ true) }
    {
        match place {
            Place::Active(i) => Ok(KeptPlace::Lent(Place::Active(i))),
            Place::Base(i) => Ok(KeptPlace::Lent(Place::Base(i))),
            Place::Argument {
                function,
                argument,
                byte,
            } => Ok(KeptPlace::Lent(Place::Argument {
                function,
                argument,
                byte,
            })),
            Place::Form(name, i) => Ok(KeptPlace::Form(Vec::from_slice(alloc, name)?, i)),
            Place::Held(number, name, i) => {
                Ok(KeptPlace::Held(number, Vec::from_slice(alloc, name)?, i))
            }
            Place::Output(i) => Ok(KeptPlace::Lent(Place::Output(i))),
        }
    }

    /// The place, which is lent the name.
    pub(crate) fn place(&self) -> Place<'_>
        ensures { place_of result ≡ kept_place self.now }
    {
        match self {
            KeptPlace::Lent(place) => *place,
            KeptPlace::Form(name, i) => Place::Form(name.as_slice(), *i),
            KeptPlace::Held(number, name, i) => Place::Held(*number, name.as_slice(), *i),
        }
    }
}
