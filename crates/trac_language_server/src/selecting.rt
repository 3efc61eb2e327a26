//! What is selected next, as a selection grows.
use crate::marked::Marked;
use crate::pairs::{Pair, argument_around, pairs_of, text_around};
use serde_json::{Value, json};
use std::alloc::{AllocError, Global};

// So many parts around a place are told at most, the innermost ones, and two more.
const MOST: usize = 90;

/// What is selected in turn from each of these places on: the argument around it, what is within the parentheses, with
/// these, and so on outward; the text that is read at once; all. The error is that memory was refused, here and below.
pub(crate) fn selections_of(
    alloc: Global,
    marked: &Marked<'_>,
    offsets: &[usize],
) -> Result<Value, AllocError> {
    let pairs = pairs_of(alloc, marked.text)?;
    let mut selections = Vec::new(alloc);
    for offset in offsets {
        let parts = parts_around(alloc, marked.text, pairs.as_slice(), *offset)?;
        selections.push(nested(alloc, marked, parts.as_slice())?)?;
    }
    Ok(Value::Array(selections))
}

// The parts of a text around a place, the innermost first.
fn parts_around(
    alloc: Global,
    text: &[u8],
    pairs: &[Pair],
    offset: usize,
) -> Result<Vec<(usize, usize)>, AllocError> {
    let mut parts = Vec::new(alloc);
    for pair in pairs.iter().rev() {
        if pair.start <= offset && offset <= pair.end() && parts.len() < MOST {
            let (start, end) = pair.inside();
            if start <= offset && offset <= end {
                grow(&mut parts, argument_around(text, *pair, offset))?;
                grow(&mut parts, (start, end))?;
            }
            grow(&mut parts, (pair.start, pair.end()))?;
        }
    }
    grow(&mut parts, text_around(text, offset))?;
    grow(&mut parts, (0, text.len()))?;
    Ok(parts)
}

// Adds a part that is larger than the last one.
fn grow(parts: &mut Vec<(usize, usize)>, (start, end): (usize, usize)) -> Result<(), AllocError> {
    let is_larger = match parts.as_slice().last() {
        Some((inner_start, inner_end)) => {
            start <= *inner_start && *inner_end <= end && (start < *inner_start || *inner_end < end)
        }
        None => true,
    };
    if is_larger {
        parts.push((start, end))?;
    }
    Ok(())
}

// The parts as ranges, each with the one around it.
fn nested(
    alloc: Global,
    marked: &Marked<'_>,
    parts: &[(usize, usize)],
) -> Result<Value, AllocError> {
    let mut around = Value::Null;
    for part in parts.iter().rev() {
        let range = marked.range(alloc, *part)?;
        around = match around {
            Value::Null => json!(in alloc; {"range": range})?,
            parent => json!(in alloc; {"range": range, "parent": parent})?,
        };
    }
    Ok(around)
}
