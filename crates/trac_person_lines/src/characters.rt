//! Texts in UTF-8, as a screen shows them: each character in one column, and a byte that is of none by its number.

use crate::unseen::is_seen;
use std::alloc::{AllocError, Allocator};
use trac_streams::escaped_into;

// A character has at most so many bytes, and a byte that is shown by its number takes as many columns.
const MOST_BYTES: usize = 4;

/// Puts a text at the end of another one: characters beyond ASCII as themselves, if they can be seen, and every other
/// byte as `trac debug` shows it. The error is that memory was refused.
pub(crate) fn shown_into<A: Allocator>(
    text: &[u8],
    out: &mut Vec<u8, A>,
) -> Result<(), AllocError> {
    let mut rest = text;
    for _ in 0..text.len() {
        let len = character_len(rest).max(1);
        let (first, others) = rest.split_at(len.min(rest.len()));
        if len > 1 {
            out.extend_from_slice(first)?;
        } else {
            escaped_into(first, out)?;
        }
        if others.is_empty() {
            return Ok(());
        }
        rest = others;
    }
    Ok(())
}

// How many bytes the character has that begins a text, if it is beyond ASCII and can be seen; else 0.
fn character_len(text: &[u8]) -> usize {
    let len = match text {
        [0xc2..=0xdf, ..] => 2,
        [0xe0..=0xef, ..] => 3,
        [0xf0..=0xf4, ..] => 4,
        _ => return 0,
    };
    match str::from_utf8(text.split_at(len.min(text.len())).0) {
        Ok(character) if character.chars().all(is_seen) => len,
        _ => 0,
    }
}

// Whether a byte goes on with a character.
fn is_next(byte: u8) -> bool {
    matches!(byte, 0x80..=0xbf)
}

/// Where the character begins that has the byte at this place of a text; that place if it is of none.
pub(crate) fn character_start(text: &[u8], place: usize) -> usize {
    for back in 1..MOST_BYTES {
        if back <= place && place < text.len() {
            let start = place - back;
            if character_len(text.split_at(start).1) > back {
                return start;
            }
        }
    }
    place
}

/// How many columns a shown text takes.
pub(crate) fn columns_in(shown: &[u8]) -> usize {
    let mut columns = 0_usize;
    for byte in shown {
        if !is_next(*byte) {
            columns = columns.saturating_add(1);
        }
    }
    columns
}

/// Which byte of a shown text begins this column, from 0; its end if it has no such column.
pub(crate) fn column_start(shown: &[u8], column: usize) -> usize {
    let mut columns = 0_usize;
    for (place, byte) in shown.iter().enumerate() {
        if !is_next(*byte) {
            if columns == column {
                return place;
            }
            columns = columns.saturating_add(1);
        }
    }
    shown.len()
}

/// How many bytes of a text are enough to fill so many columns, and one more.
pub(crate) fn filling(columns: usize) -> usize {
    columns.saturating_add(1).saturating_mul(MOST_BYTES)
}
