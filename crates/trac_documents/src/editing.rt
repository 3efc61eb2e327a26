//! Edits of a text.
ghost use Rattle.std.specs.Prelude.{◌≡◌, ◌≤◌, IfOk, length};
ghost use Rattle.trac_documents.specs.Edits.{changed, edited};

use crate::positions::{Encoding, Position, offset_of};
use std::alloc::{AllocError, Allocator};

/// A part of a text.
#[derive(Clone, Copy, Debug, PartialEq, Eq)]
pub struct Range {
    /// Where it begins.
    pub start: Position,
    /// Where it ends. A place before the start counts for the start.
    pub end: Position,
}

/// A text after a change: the range replaced by a new text, or all of it without a range. The error is that memory was
/// refused, here and below.
pub fn changed<A: Allocator>(
    alloc: A,
    text: &[u8],
    encoding: Encoding,
    range: Option<Range>,
    new: &[u8],
) -> Result<Vec<u8, A>, AllocError>
    ensures { IfOk result (λ made. made.items ≡ changed encoding range new.now text.now) }
{
    let Some(range) = range else {
        return Vec::from_slice(alloc, new);
    };
    let start = offset_of(text, encoding, range.start);
    let end = offset_of(text, encoding, range.end).max(start);
    edited(alloc, text, start, end, new)
}

/// A text with the bytes between two places replaced by others.
pub fn edited<A: Allocator>(
    alloc: A,
    text: &[u8],
    start: usize,
    end: usize,
    new: &[u8],
) -> Result<Vec<u8, A>, AllocError>
    requires start { start ≤ length text.now }
    requires end { end ≤ length text.now }
    ensures { IfOk result (λ made. made.items ≡ edited start end new.now text.now) }
{
    let mut made = Vec::from_slice(alloc, text.split_at(start).0)?;
    made.extend_from_slice(new)?;
    made.extend_from_slice(text.split_at(end).1)?;
    Ok(made)
}
