//! From where a call had the byte that it gave.
ghost use Rattle.std.specs.Prelude.{◌≡◌, ◌+◌, ℕ};
ghost use Rattle.trac_follow_step.specs.Places.{place_of};
ghost use Rattle.trac_walk.specs.Ways.{IsOfArgument};

use std::alloc::{AllocError, Allocator};
use trac_follow::Place;
use trac_person_lines::Treatment;
use trac_prims::primitive_named;
use trac_replies::LINE_COUNT;
use trac_rules::primitive::{Computation, FormAction, Primitive};
use trac_session::Machine;
use trac_sight::{glance_at, performed_in, sight_of};

/// From where a call had a byte.
#[derive(Clone, Copy, PartialEq, Eq)]
pub(crate) enum Manner {
    /// From a form, or as its name says.
    Plain,
    /// From the argument with which it filled the gap of this number.
    Filled(u64),
    /// From its default argument.
    Default,
}

impl Manner {
    /// What is said of the call that did this with the byte.
    pub(crate) fn treatment(self, deed: Treatment) -> Treatment {
        match (deed, self) {
            (Treatment::Gives, Manner::Filled(gap)) => Treatment::Fills(gap),
            (Treatment::Gives, Manner::Default) => Treatment::Defaults,
            (deed, _) => deed,
        }
    }
}

/// A call, as far as it tells from where it had a byte.
#[derive(Clone, Copy)]
pub(crate) struct Giver {
    // how many functions are begun, itself among them
    depth: usize,
    // what it does with its arguments
    use_of_arguments: Use,
}

// What a call does with the arguments after the first one.
#[derive(Clone, Copy, PartialEq, Eq)]
enum Use {
    // It fills gaps with them.
    Fills,
    // It gives the last of them if it has nothing else to give.
    Defaults,
    // Anything else.
    Other,
}

impl Giver {
    /// No call.
    pub(crate) fn nobody() -> Self {
        Giver {
            depth: 0,
            use_of_arguments: Use::Other,
        }
    }

    /// The call that comes next.
    pub(crate) fn at<A: Allocator + Copy>(machine: &Machine<A>) -> Self {
        let sight = sight_of(machine);
        Giver {
            depth: glance_at(machine).depth,
            use_of_arguments: match performed_in(&sight) {
                Some(arguments) => use_by(primitive_named(arguments.get(0))),
                None => Use::Other,
            },
        }
    }

    /// Whether it may have a byte in more than one manner.
    pub(crate) fn has_manners(self) -> bool {
        self.use_of_arguments != Use::Other
    }

    /// From where it had a byte that stood at this place before it.
    pub(crate) fn manner_from(self, place: Place<'_>) -> Manner
        ensures { (gap : ℕ) → result ≡ Manner.Filled gap → IsOfArgument self.depth (gap + 1) (place_of place.entry) }
    {
        match place {
            Place::Argument {
                function,
                argument,
                byte: _,
            } if argument > 1 && function.checked_add(1) == Some(self.depth) => {
                match self.use_of_arguments {
                    Use::Fills => Manner::Filled(argument as u64 - 1),
                    Use::Defaults => Manner::Default,
                    Use::Other => Manner::Plain,
                }
            }
            _ => Manner::Plain,
        }
    }
}

// What a call of a primitive does with its arguments.
fn use_by(primitive: Primitive) -> Use {
    match primitive {
        Primitive::Handle(FormAction::Call) => Use::Fills,
        Primitive::Handle(FormAction::Read(_)) | Primitive::Compute(Computation::Calculate(_)) =>
            Use::Defaults,
        _ => Use::Other,
    }
}

/// From where the calls on a way had the byte, the latest first, of as many as lines are shown of.
#[derive(Drop)]
pub(crate) struct Manners<A: Allocator + Copy> {
    list: Vec<Manner, A>,
    // the call that was told last
    giver: Giver,
    // from where the byte was followed to that call, if that is in a text
    from: Option<TextPlace>,
}

/// A place in a text. It names no form, so nothing is lent to it.
#[derive(Clone, Copy)]
pub(crate) enum TextPlace {
    /// Of the text to be scanned: this byte.
    Active(usize),
    /// Of the base text: this byte.
    Base(usize),
    /// Of this begun function: this byte of this argument.
    Argument {
        function: usize,
        argument: usize,
        byte: usize,
    },
}

impl TextPlace {
    // None if a place is in a form or a block, or in the output.
    fn of(place: Place<'_>) -> Option<Self> {
        match place {
            Place::Active(byte) => Some(TextPlace::Active(byte)),
            Place::Base(byte) => Some(TextPlace::Base(byte)),
            Place::Argument {
                function,
                argument,
                byte,
            } => Some(TextPlace::Argument {
                function,
                argument,
                byte,
            }),
            Place::Form(_, _) | Place::Held(_, _, _) | Place::Output(_) => None,
        }
    }

    /// The same among all places.
    pub(crate) fn place<'p>(self) -> Place<'p> {
        match self {
            TextPlace::Active(byte) => Place::Active(byte),
            TextPlace::Base(byte) => Place::Base(byte),
            TextPlace::Argument {
                function,
                argument,
                byte,
            } => Place::Argument {
                function,
                argument,
                byte,
            },
        }
    }
}

impl<A: Allocator + Copy> Manners<A> {
    /// Before the first call. It takes no memory.
    pub(crate) fn new(alloc: A) -> Self {
        Manners {
            list: Vec::new(alloc),
            giver: Giver::nobody(),
            from: None,
        }
    }

    /// From where the call of this number had it.
    pub(crate) fn of(&self, number: usize) -> Manner {
        match self.list.as_slice().get(number) {
            Some(manner) => *manner,
            None => Manner::Plain,
        }
    }

    /// The call that was told last.
    pub(crate) fn giver(&self) -> Giver {
        self.giver
    }

    /// From where the byte was followed to the call that was told last, of so many; none if that was in no text, or if
    /// no more is to be said of that call.
    pub(crate) fn last_from(&self, count: usize) -> Option<TextPlace> {
        if count == self.list.len() && self.giver.has_manners() {
            self.from
        } else {
            None
        }
    }

    /// Told of a call, which is next after so many others, and to which the byte was followed from this place: that is
    /// where the call before had it. The error is that memory was refused.
    pub(crate) fn hear(
        &mut self,
        machine: &Machine<A>,
        from: Place<'_>,
        count: usize,
    ) -> Result<(), AllocError> {
        if count == self.list.len() {
            let manner = self.giver.manner_from(from);
            self.put_last(manner);
        }
        self.giver = Giver::at(machine);
        self.from = TextPlace::of(from);
        if count.saturating_add(1) < LINE_COUNT {
            self.list.push(Manner::Plain)?;
        }
        Ok(())
    }

    /// Says from where the call had it that was told last.
    pub(crate) fn put_last(&mut self, manner: Manner) {
        let len = self.list.len();
        if len > 0 {
            self.list[len - 1] = manner;
        }
    }
}
