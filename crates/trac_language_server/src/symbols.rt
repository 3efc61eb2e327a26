//! The forms that a text defines, as it is written.
use crate::marked::Marked;
use crate::parts::{after, front};
use serde_json::{Value, json};
use std::alloc::{AllocError, Global};

// What a call begins with that defines a form, in either case of letters.
const DEFINES: &[u8] = b"#(ds,";

// The end of a call is looked for in so many bytes.
const CALL_LIMIT: usize = 65_536;

// The number that the protocol has for a function.
const FUNCTION: u64 = 12;

// So many forms are told at most.
const MOST: usize = 10_000;

/// The forms that a text defines, the first 10,000 of them: each call of `ds` with a name that is written out. The
/// error is that memory was refused, here and below.
pub(crate) fn symbols_of(alloc: Global, marked: &Marked<'_>) -> Result<Value, AllocError> {
    let mut symbols = Vec::new(alloc);
    for place in 0..marked.text.len() {
        if symbols.len() >= MOST {
            break;
        }
        if let Some(name) = name_in(after(marked.text, place)) {
            symbols.push(symbol_of(alloc, marked, place, name)?)?;
        }
    }
    Ok(Value::Array(symbols))
}

// The form of this name that the call at a place defines.
fn symbol_of(
    alloc: Global,
    marked: &Marked<'_>,
    call: usize,
    name: &str,
) -> Result<Value, AllocError> {
    let len = call_len(after(marked.text, call));
    let start = call.saturating_add(DEFINES.len());
    let end = start.saturating_add(name.len());
    let range = marked.range(alloc, (call, call.saturating_add(len).max(end)))?;
    let selected = marked.range(alloc, (start, end))?;
    json!(in alloc; {
        "name": name, "kind": FUNCTION, "range": range, "selectionRange": selected
    })
}

// The name that the call defines with which a text begins; none, if it defines none or a blank one.
fn name_in(call: &[u8]) -> Option<&str> {
    if !front(call, DEFINES.len()).eq_ignore_ascii_case(DEFINES) {
        return None;
    }
    let rest = after(call, DEFINES.len());
    let len = rest.iter().position(|byte| matches!(
        *byte,
        b',' | b')' | b'(' | b'#' | b'\r' | b'\n'
    ));
    let name = front(rest, len?);
    if name.iter().all(|byte| byte.is_ascii_whitespace()) {
        return None;
    }
    str::from_utf8(name).ok()
}

// How long the call is with which a text begins, up to the parenthesis that matches its first; none, if that is far.
fn call_len(call: &[u8]) -> usize {
    let mut depth = 0_u64;
    for (place, byte) in front(call, CALL_LIMIT).iter().enumerate() {
        match byte {
            b'(' => depth = depth.saturating_add(1),
            b')' if depth <= 1 => return place.saturating_add(1),
            b')' => depth = depth.saturating_sub(1),
            _ => {}
        }
    }
    0
}
