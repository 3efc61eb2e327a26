//! Places in the neutral text.
use trac_rules::kind::Kind;

/// A place in the neutral text: where a begun function starts, or where one of its further arguments does.
#[derive(Clone, Copy, Debug, PartialEq, Eq)]
pub struct Mark {
    /// How many bytes of the neutral text stand before it.
    pub place: usize,
    /// The kind of the function that is begun here; none if a finished argument ends here.
    pub frame: Option<Kind>,
}
