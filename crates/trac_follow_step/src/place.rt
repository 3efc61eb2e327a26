//! Places of a state, and what is said of where a byte comes from.

/// A place of a state at which a byte stands, or an item of a form. All numbers begin with 0.
#[derive(Clone, Copy)]
pub enum Place<'a> {
    /// A byte of the active text.
    Active(usize),
    /// A byte of the base text.
    Base(usize),
    /// A byte of an argument of a begun function. The outermost function has number 0, its name is argument 0, and the
    /// argument being gathered is the last.
    Argument {
        function: usize,
        argument: usize,
        byte: usize,
    },
    /// An item of the form of this name, those before its pointer first.
    Form(&'a [u8], usize),
    /// A block by its number, a form that it holds by its name, and an item of that.
    Held(usize, &'a [u8], usize),
    /// A byte of the output.
    Output(usize),
}

/// Where a byte comes from that stands in the state after a step, as it is told in the state before it.
#[derive(Clone, Copy)]
pub enum Origin<'a> {
    /// It stood at this place. That is a form only if it stands in a form or a block after the step.
    Carried(Place<'a>),
    /// It is this item of the form that argument 1 of the call names which the step performs. It stands in no
    /// form and no block after the step.
    OfForm(usize),
    /// It is the byte of this number of the tape, which the step read.
    Read(usize),
    /// The step made it.
    Made,
    /// Nothing stands at the place after the step.
    Nothing,
}

/// What is told of the state after a step: how long texts are, and of a place in a form what stands
/// before it and there.
#[derive(Clone, Copy)]
pub struct After {
    /// How long the active text is.
    pub active: usize,
    /// How long the output is.
    pub output: usize,
    /// How many bytes the items before the place stand for.
    pub extent: usize,
    /// Whether a gap stands at the place.
    pub is_gap: bool,
}
