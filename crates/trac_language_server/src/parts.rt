//! Parts of texts: a place past the end counts for the end.

/// The first bytes of a text, so many of them.
pub(crate) fn front(text: &[u8], len: usize) -> &[u8] {
    text.split_at(len.min(text.len())).0
}

/// What stands after the first bytes of a text.
pub(crate) fn after(text: &[u8], len: usize) -> &[u8] {
    text.split_at(len.min(text.len())).1
}
