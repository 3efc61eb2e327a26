//! Doubts: what a step does that a person is unlikely to have meant.

/// What the next step would do that a person is unlikely to have meant. It changes nothing of the language: a doubtful
/// step is a step like any other. Arguments are counted from the name of a call, which is argument 0.
#[derive(Clone, Copy, Debug, PartialEq, Eq)]
pub enum Doubt {
    /// It performs a name that is no primitive's, and no form's.
    NoPrimitive,
    /// It performs a name that is no primitive's, but a form's: that is called by `cl`.
    FormUncalled,
    /// Argument 1 of a primitive that needs a form names none.
    NoForm,
    /// Argument 1 of `fb` or `eb` names a form whose bytes are no number of a live block.
    NoBlock,
    /// This argument of a call is the first one that nothing uses.
    Unused(usize),
    /// This argument counts as a number, is not null, and ends in no numeral: so it counts as 0.
    NoNumber(usize),
    /// An operand or the result of `ad`, `su`, `ml` or `dv` does not fit, or the divisor is 0, and the call has no
    /// argument 3.
    NoResult,
    /// This argument of `ss` is not null, and stands in no run of bytes between gaps of the form, as it is before the
    /// cut.
    Nowhere(usize),
    /// It loads the idle program, while so many calls are begun.
    Unended(usize),
    /// A `(` protects all the rest, since nothing closes it.
    Unclosed,
    /// A `)` stands outside all calls, and is deleted.
    EndsNothing,
}
