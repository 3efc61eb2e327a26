//! What belongs together around a place.
use crate::marked::Marked;
use crate::pairs::{Pair, pairs_of};
use serde_json::{Value, json};
use std::alloc::{AllocError, Global};

// The number that the protocol has for what is highlighted as a text.
const TEXT: u64 = 1;

/// The two ends of the pair whose parenthesis or mark stands after a place, or before it; none, if there is none. The
/// error is that memory was refused, here and below.
pub(crate) fn matches_at(
    alloc: Global,
    marked: &Marked<'_>,
    offset: usize,
) -> Result<Value, AllocError> {
    let pairs = pairs_of(alloc, marked.text)?;
    let pairs = pairs.as_slice();
    let after = pairs.iter().find(|pair| begins_at(**pair, offset));
    let before = pairs.iter().find(|pair| ends_at(**pair, offset));
    let mut ends = Vec::new(alloc);
    if let Some(pair) = after.or(before) {
        let begin = (pair.start, pair.open.saturating_add(1));
        ends.push(highlight(alloc, marked, begin, TEXT)?)?;
        ends.push(highlight(alloc, marked, (pair.close, pair.end()), TEXT)?)?;
    }
    Ok(Value::Array(ends))
}

// Whether a mark or parenthesis of a pair stands right after a place.
fn begins_at(pair: Pair, offset: usize) -> bool {
    pair.start <= offset && offset <= pair.open || offset == pair.close
}

// Whether one stands right before it.
fn ends_at(pair: Pair, offset: usize) -> bool {
    offset == pair.open.saturating_add(1) || offset == pair.end()
}

/// A part of a text that is to be seen, of a kind that has this number.
pub(crate) fn highlight(
    alloc: Global,
    marked: &Marked<'_>,
    part: (usize, usize),
    kind: u64,
) -> Result<Value, AllocError> {
    let range = marked.range(alloc, part)?;
    json!(in alloc; {"range": range, "kind": kind})
}
