//! What a form is made of.

/// An item of a form: a byte, or a gap where a text was cut out.
#[derive(Clone, Copy, Debug, PartialEq, Eq)]
pub enum Item {
    /// A byte of the form's text.
    Byte(u8),
    /// Where the text of this ordinal was cut out, which was `width` bytes long: at least one.
    Gap { ordinal: u32, width: u32 },
}

/// A gap that segmenting makes: how many items stand before it in the segmented form, and its ordinal.
#[derive(Clone, Copy, Debug, PartialEq, Eq)]
pub struct CutGap {
    pub place: usize,
    pub ordinal: u32,
}
