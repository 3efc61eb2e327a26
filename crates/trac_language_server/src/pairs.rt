//! Parentheses that match.

use crate::parts::{after, front};
use std::alloc::{AllocError, Global};

// So many pairs are looked for at most.
const MOST: usize = 1_000_000;

/// Two parentheses that match, as they stand in a text.
#[derive(Clone, Copy, Debug, PartialEq, Eq)]
pub(crate) struct Pair {
    /// Where it begins: at the `#` or `##` of a call, or at the opening parenthesis.
    pub start: usize,
    /// Where the opening parenthesis stands.
    pub open: usize,
    /// Where the closing one stands.
    pub close: usize,
}

impl Pair {
    /// Where it ends: after its closing parenthesis.
    pub(crate) fn end(&self) -> usize {
        self.close.saturating_add(1)
    }

    /// From where to where what stands within its parentheses.
    pub(crate) fn inside(&self) -> (usize, usize) {
        (self.open.saturating_add(1), self.close)
    }
}

/// The pairs of a text, in the order in which they begin. An apostrophe ends what is read at once: across it none
/// match. The error is that memory was refused.
pub(crate) fn pairs_of(alloc: Global, text: &[u8]) -> Result<Vec<Pair>, AllocError> {
    let mut pairs = Vec::new(alloc);
    let mut begun: Vec<usize> = Vec::new(alloc);
    for (place, byte) in text.iter().enumerate() {
        match byte {
            b'(' if begun.len() < MOST => begun.push(place)?,
            b')' => {
                if let Some(open) = begun.pop() {
                    let start = start_of(text, open);
                    pairs.push(Pair {
                        start,
                        open,
                        close: place,
                    })?;
                }
            }
            b'\'' => begun.clear(),
            _ => {}
        }
        if pairs.len() >= MOST {
            break;
        }
    }
    pairs.sort_by_key(|pair: &Pair| pair.open)?;
    Ok(pairs)
}

// Where that begins whose opening parenthesis stands at a place.
fn start_of(text: &[u8], open: usize) -> usize {
    let before = front(text, open);
    if before.ends_with(b"##") {
        open.saturating_sub(2)
    } else if before.ends_with(b"#") {
        open.saturating_sub(1)
    } else {
        open
    }
}

/// The argument around a place: from where to where what stands there between two commas of what is within a pair, or
/// between a comma and a parenthesis of it.
pub(crate) fn argument_around(text: &[u8], pair: Pair, offset: usize) -> (usize, usize) {
    let (mut start, end) = pair.inside();
    let mut depth = 0_u64;
    for (place, byte) in front(text, end).iter().enumerate() {
        if place <= pair.open {
            continue;
        }
        match byte {
            b'(' => depth = depth.saturating_add(1),
            b')' => depth = depth.saturating_sub(1),
            b',' if depth == 0 && place >= offset => return (start, place),
            b',' if depth == 0 => start = place.saturating_add(1),
            _ => {}
        }
    }
    (start, end)
}

/// The text around a place that is read at once: with the apostrophe that ends it, and without the line ends before it.
pub(crate) fn text_around(text: &[u8], offset: usize) -> (usize, usize) {
    let before = front(text, offset);
    let len = before.iter().rev().position(|byte| *byte == b'\'');
    let start = before.len().saturating_sub(len.unwrap_or(before.len()));
    let blank = after(text, start)
        .iter()
        .position(|byte| !byte.is_ascii_whitespace());
    let start = start.saturating_add(blank.unwrap_or(0)).min(offset);
    let rest = after(text, offset);
    let len = rest.iter().position(|byte| *byte == b'\'');
    let end = match len {
        Some(len) => offset.saturating_add(len).saturating_add(1),
        None => text.len(),
    };
    (start, end)
}
