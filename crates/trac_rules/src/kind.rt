//! The two kinds of function.

/// Where the value of a function goes.
#[derive(Clone, Copy, Debug, PartialEq, Eq)]
pub enum Kind {
    /// `#(..)`: the value goes before the active text, and is scanned.
    Active,
    /// `##(..)`: a value that is not forced goes to the current text, and is not scanned.
    Neutral,
}
