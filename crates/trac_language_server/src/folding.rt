//! What of a text can be folded away.
use crate::marked::Marked;
use crate::pairs::{Pair, pairs_of};
use crate::parts::front;
use serde_json::{Value, json};
use std::alloc::{AllocError, Global};

// So many parts are told at most.
const MOST: usize = 10_000;

/// The parts of a text that can be folded away: for each line the first pair of parentheses that begins in it and ends
/// in a later one. The error is that memory was refused.
pub(crate) fn folds_of(alloc: Global, marked: &Marked<'_>) -> Result<Value, AllocError> {
    let mut folds = Vec::new(alloc);
    let mut last = None;
    let pairs = pairs_of(alloc, marked.text)?;
    for pair in pairs.as_slice() {
        if folds.len() >= MOST {
            break;
        }
        let Some((start, end)) = lines_of(marked, *pair) else {
            continue;
        };
        if last == Some(start) {
            continue;
        }
        last = Some(start);
        folds.push(json!(in alloc; {"startLine": start, "endLine": end})?)?;
    }
    Ok(Value::Array(folds))
}

// The first line of a pair and the last one that is folded away with it. That in which it ends stays if nothing but
// closing parentheses stands before its end.
fn lines_of(marked: &Marked<'_>, pair: Pair) -> Option<(u64, u64)> {
    let start = marked.line(pair.start);
    let end = marked.line(pair.close);
    let end = if is_bare(front(marked.text, pair.close)) {
        end.saturating_sub(1)
    } else {
        end
    };
    (start < end).then_some((start, end))
}

// Whether the last line of a text has nothing but blanks and closing parentheses.
fn is_bare(text: &[u8]) -> bool {
    let last = text
        .iter()
        .rev()
        .find(|byte| !matches!(**byte, b' ' | b'\t' | b')'));
    matches!(last, None | Some(b'\n') | Some(b'\r'))
}
