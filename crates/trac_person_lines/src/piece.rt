//! A piece of a line of the program, with a mark under one of its bytes.

use crate::characters::{character_start, columns_in, filling, shown_into};
use crate::screen::end_of_into;
use crate::screen_line::{ScreenLine, WIDTH, front, tail};
use std::alloc::{AllocError, Allocator};
use trac_rules::byte::LINE_FEED;

// What a piece begins with: a word, so that it is not taken for a prompt.
const LABEL: &[u8] = b"FILE    ";

// So many columns are left for the piece.
const ROOM: usize = WIDTH - LABEL.len();

// Of a line that has more, so many columns before the byte are shown after `..`, and more if what follows leaves room.
const ROOM_BEFORE: usize = ROOM / 2;

/// Puts two lines at the end of a text: the line of the program that has the byte of this number, the first being
/// number 0, and `^` under that byte, or under the character that has it. A long line is cut around it. Of a byte after
/// the program nothing is put there. The error is that memory was refused, here and below.
pub fn piece_into<A: Allocator + Copy>(
    alloc: A,
    program: &[u8],
    number: u64,
    out: &mut Vec<u8, A>,
) -> Result<(), AllocError> {
    if number >= program.len() as u64 {
        return Ok(());
    }
    let (before, from) = program.split_at(character_start(program, number as usize).min(
        program.len(),
    ));
    let from = line_before_end(from);
    let mut line = ScreenLine::new(alloc);
    line.say(LABEL);
    before_into(alloc, end_after_line(before), from, &mut line)?;
    let column = line.columns();
    line.show(from);
    line.end_into(out)?;
    let mut mark = ScreenLine::new(alloc);
    mark.pad(column);
    mark.say(b"^");
    mark.end_into(out)
}

/// The same between the lines of the program before and after that one, if there are any.
pub fn piece_around_into<A: Allocator + Copy>(
    alloc: A,
    program: &[u8],
    number: u64,
    out: &mut Vec<u8, A>,
) -> Result<(), AllocError> {
    if number >= program.len() as u64 {
        return Ok(());
    }
    let (before, from) = program.split_at(number as usize);
    let len = before.len() - before.len().min(end_after_line(before).len());
    if let [others @ .., b'\n'] = before.split_at(len).0 {
        beside_into(alloc, end_after_line(others), out)?;
    }
    piece_into(alloc, program, number, out)?;
    match from.split_at(from.len().min(line_before_end(from).len())).1 {
        [b'\n'] | [] => Ok(()),
        [_, others @ ..] => beside_into(alloc, line_before_end(others), out),
    }
}

// A line of the program beside the one that is marked.
fn beside_into<A: Allocator + Copy>(
    alloc: A,
    text: &[u8],
    out: &mut Vec<u8, A>,
) -> Result<(), AllocError> {
    let mut line = ScreenLine::new(alloc);
    if !text.is_empty() {
        line.pad(LABEL.len());
        line.show(text);
    }
    line.end_into(out)
}

// The first of two texts, cut if there is no room for both.
fn before_into<A: Allocator + Copy>(
    alloc: A,
    before: &[u8],
    from: &[u8],
    line: &mut ScreenLine<A>,
) -> Result<(), AllocError> {
    let mut shown = Vec::new(alloc);
    shown_into(front(from, filling(ROOM)), &mut shown)?;
    // the mark takes a column if nothing follows
    let len = columns_in(shown.as_slice()).max(1);
    shown.clear();
    shown_into(tail(before, filling(ROOM)), &mut shown)?;
    let columns = columns_in(shown.as_slice());
    let room = if columns.saturating_add(len) > ROOM {
        ROOM_BEFORE.max((ROOM - 2).saturating_sub(len))
    } else {
        ROOM
    };
    end_of_into(shown.as_slice(), room, false, line);
    Ok(())
}

// What stands after the last line feed of a text.
fn end_after_line(text: &[u8]) -> &[u8] {
    let len = text.iter().rev().position(|byte| *byte == LINE_FEED);
    tail(text, len.unwrap_or(text.len()))
}

// What stands before the first line feed of a text.
fn line_before_end(text: &[u8]) -> &[u8] {
    let len = text.iter().position(|byte| *byte == LINE_FEED);
    front(text, len.unwrap_or(text.len()))
}
