//! The texts that a program reads from its files.

use std::alloc::Allocator;
use trac_moves::Walker;
use trac_rules::byte::{CARRIAGE_RETURN, LINE_FEED, TAB};

/// The number of the first byte of a text that is read from this one of the files on: blanks, tabs and line ends may
/// stand before it.
pub(crate) fn text_from(tape: &[u8], number: u64) -> u64 {
    let number = tape.len().min(number as usize);
    let unread = tape.split_at(number).1;
    match unread.iter().position(|byte| !is_blank(*byte)) {
        Some(skipped) => (number as u64).saturating_add(skipped as u64),
        None => number as u64,
    }
}

/// The text that is read from this byte of the files on up to this meta character, which it is without, and the number
/// of its first byte that is no blank.
pub(crate) fn text_read(tape: &[u8], number: u64, meta: u8) -> (u64, &[u8]) {
    let start = text_from(tape, number);
    let text = tape.split_at(tape.len().min(start as usize)).1;
    match text.iter().position(|byte| *byte == meta) {
        Some(end) => (start, text.split_at(end).0),
        None => (start, text),
    }
}

/// The number of the first byte of the text that ends before this one of the files, with its meta character.
pub(crate) fn text_before(tape: &[u8], number: u64, meta: u8) -> u64 {
    let number = tape.len().min(number as usize);
    let read = tape.split_at(number.saturating_sub(1)).0;
    let mut start = 0;
    for (place, byte) in read.iter().enumerate() {
        if *byte == meta {
            start = (place as u64).saturating_add(1);
        }
    }
    text_from(tape, start)
}

/// How many bytes of all files a walker has read.
pub(crate) fn read_number<A: Allocator + Copy>(walker: &Walker<A>) -> u64 {
    let position = walker.sight().position;
    walker.input_number(position)
}

/// Whether it is a blank, a tab or a line end.
pub(crate) fn is_blank(byte: u8) -> bool {
    matches!(byte, b' ' | TAB | CARRIAGE_RETURN | LINE_FEED)
}
