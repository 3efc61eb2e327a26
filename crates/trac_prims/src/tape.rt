//! The input of a machine.

/// The bytes handed in so far, and whether the input ends there.
#[derive(Clone, Copy, Debug)]
pub struct Tape<'a> {
    /// All bytes, those that are read included.
    pub bytes: &'a [u8],
    /// Whether no more bytes will come.
    pub ended: bool,
}
