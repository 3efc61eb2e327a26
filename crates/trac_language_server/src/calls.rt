//! Calls, as they are written in a text.

use crate::parts::{after, front};

/// From which byte to which a name stands, of which an offset lies within or at an end: letters right after `#(`.
pub(crate) fn name_at(text: &[u8], offset: usize) -> Option<(usize, usize)> {
    let before = front(text, offset);
    let letters = before
        .iter()
        .rev()
        .position(|byte| !byte.is_ascii_alphabetic());
    let start = before.len().saturating_sub(letters.unwrap_or(before.len()));
    if !front(before, start).ends_with(b"#(") {
        return None;
    }
    let rest = after(text, offset);
    let letters = rest.iter().position(|byte| !byte.is_ascii_alphabetic());
    Some((
        start,
        before.len().saturating_add(letters.unwrap_or(rest.len())),
    ))
}

/// The bytes between two places of a text.
pub(crate) fn between(text: &[u8], (start, end): (usize, usize)) -> &[u8] {
    after(front(text, end), start)
}

/// A call that is written around a place, as far as it goes before that.
#[derive(Clone, Copy)]
pub(crate) struct Around<'t> {
    /// Its name.
    pub name: &'t [u8],
    /// In which argument the place is; its name is argument 0.
    pub argument: usize,
}

// A call is looked for over so many bytes at most.
const CALL_LIMIT: usize = 65_536;

/// The call that is written around a place, whether it ends or not; none, if none begins there in the text that is read
/// at once, or what is around the place are protecting parentheses.
pub(crate) fn call_around(text: &[u8], offset: usize) -> Option<Around<'_>> {
    let before = front(text, offset);
    let near = after(before, before.len().saturating_sub(CALL_LIMIT));
    let mut depth = 0_u64;
    let mut argument = 0_usize;
    for (passed, byte) in near.iter().rev().enumerate() {
        match byte {
            b')' => depth = depth.saturating_add(1),
            b'(' if depth == 0 => {
                let open = before.len().saturating_sub(passed).saturating_sub(1);
                return call_from(before, open, argument);
            }
            b'(' => depth = depth.saturating_sub(1),
            b',' if depth == 0 => argument = argument.saturating_add(1),
            b'\'' => return None,
            _ => {}
        }
    }
    None
}

// The call whose parenthesis opens at a place, if it is one.
fn call_from(text: &[u8], open: usize, argument: usize) -> Option<Around<'_>> {
    if !front(text, open).ends_with(b"#") {
        return None;
    }
    let rest = after(text, open.saturating_add(1));
    let len = rest.iter().position(|byte| !byte.is_ascii_alphabetic());
    let name = front(rest, len.unwrap_or(rest.len()));
    Some(Around { name, argument })
}
