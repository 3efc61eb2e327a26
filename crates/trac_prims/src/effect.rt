//! What a call will do, and what it has to know for that.
ghost use Rattle.std.specs.Prelude.{◌≡◌, []};

use std::alloc::{Allocator, Global};
use trac_change::Change;
use trac_rules::width::Width;

/// What a call will do, its pieces already made. Position, meta character and trace are those after the call.
#[derive(Drop)]
pub struct Effect<A: Allocator + Copy = Global> {
    /// The value.
    pub value: Vec<u8, A>,
    /// Whether the value is scanned, though the function may be neutral.
    pub forced: bool,
    /// What is printed, the line of the trace first.
    pub print: Vec<u8, A>,
    /// How many bytes of the tape are read by then.
    pub position: usize,
    /// The byte that ends a text of the input from then on.
    pub meta: u8,
    /// Whether each call is printed from then on.
    pub trace: bool,
    /// What becomes of the forms.
    pub change: Change<A>,
}

/// The texts that a call makes. They are buffers that may serve one call after another.
#[derive(Drop)]
pub struct Made<A: Allocator + Copy = Global> {
    /// The value.
    pub value: Vec<u8, A>,
    /// What is printed, the line of the trace first.
    pub print: Vec<u8, A>,
}

/// What a call will do, but for the texts that it makes and what becomes of forms and blocks.
#[derive(Clone, Copy)]
pub struct Deed {
    /// How many bytes of the tape are read.
    pub read: usize,
    /// Whether the value is scanned, though the function may be neutral.
    pub forced: bool,
    /// The byte that ends a text of the input from then on, if it is set.
    pub meta: Option<u8>,
    /// Whether each call is printed from then on, if that is set.
    pub trace: Option<bool>,
}

/// What a call has to know of the machine.
#[derive(Clone, Copy, Debug)]
pub struct Now {
    /// How many bytes of the tape are read.
    pub position: usize,
    /// How many bytes of output are kept.
    pub output: usize,
    /// How many bytes the active text and the neutral text hold without the call: its arguments and
    /// the `)` that ends it.
    pub text: usize,
    /// The byte that ends a text of the input.
    pub meta: u8,
    /// Whether each call is printed.
    pub trace: bool,
    /// How wide numbers are.
    pub width: Width,
}

impl<A: Allocator + Copy> Made<A> {
    /// Empty texts, which take no memory yet.
    pub fn new(alloc: A) -> Self
        ensures value { result.value.items ≡ [] }
        ensures print { result.print.items ≡ [] }
    {
        Made {
            value: Vec::new(alloc),
            print: Vec::new(alloc),
        }
    }
}

// A call that reads and sets nothing.
pub(crate) const NOTHING: Deed = Deed {
    forced: false,
    read: 0,
    meta: None,
    trace: None,
};
