//! What a record says, but for what was destroyed of forms and blocks.
use trac_rules::kind::Kind;
use trac_text::PiecesRef;

/// What the record of a call says beside its arguments, and what was destroyed of forms and blocks.
#[derive(Clone, Copy)]
pub struct Called {
    /// How many bytes its value has.
    pub value: usize,
    /// How many bytes were printed.
    pub printed: usize,
    /// How many bytes of the tape were read.
    pub read: usize,
    /// The kind of the function.
    pub kind: Kind,
    /// Whether the value went before the active text, to be scanned, and not to the current text.
    pub scanned: bool,
    /// The meta character before, if the call set one.
    pub meta: Option<u8>,
    /// Whether each call was printed before.
    pub trace: bool,
}

/// The record of a call, lent, but for what was destroyed of forms and blocks.
#[derive(Drop)]
pub struct LentCall<'a> {
    /// What it says beside its arguments.
    pub called: Called,
    /// Its arguments, where they are kept.
    pub arguments: PiecesRef<'a>,
}
