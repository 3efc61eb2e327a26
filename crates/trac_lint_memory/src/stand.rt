//! Where a byte stands, without the name of its form.

use trac_follow_step::Place;

/// A place without the name of its form. It borrows nothing.
#[derive(Clone, Copy, PartialEq, Eq, PartialOrd, Ord, Debug)]
pub enum Stand {
    /// A byte of the active text.
    Active(usize),
    /// A byte of the base text.
    Base(usize),
    /// A function, its argument, and a byte of that.
    Argument(usize, usize, usize),
    /// An item of a form.
    Form(usize),
    /// A block, and an item of a form that it holds.
    Held(usize, usize),
    /// A byte of the output.
    Output(usize),
}

impl Stand {
    /// That of a place.
    pub fn of(place: Place<'_>) -> Self {
        match place {
            Place::Active(i) => Stand::Active(i),
            Place::Base(i) => Stand::Base(i),
            Place::Argument {
                function,
                argument,
                byte,
            } => Stand::Argument(function, argument, byte),
            Place::Form(_, i) => Stand::Form(i),
            Place::Held(number, _, i) => Stand::Held(number, i),
            Place::Output(i) => Stand::Output(i),
        }
    }

    /// The place with this name of its form, which says nothing if it is in none.
    pub fn place(self, name: &[u8]) -> Place<'_> {
        match self {
            Stand::Active(i) => Place::Active(i),
            Stand::Base(i) => Place::Base(i),
            Stand::Argument(function, argument, byte) => Place::Argument {
                function,
                argument,
                byte,
            },
            Stand::Form(i) => Place::Form(name, i),
            Stand::Held(number, i) => Place::Held(number, name, i),
            Stand::Output(i) => Place::Output(i),
        }
    }
}
