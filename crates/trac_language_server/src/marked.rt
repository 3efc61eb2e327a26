//! A text whose places become positions quickly, however many of them.

use crate::json::range_between;
use crate::parts::after;
use serde_json::Value;
use std::alloc::{AllocError, Global};
use trac_documents::{Encoding, Position, offset_of, position_of};

// The position is kept of each byte whose number this divides.
const SPACING: usize = 1_024;

// The start of a text.
const START: Position = Position {
    line: 0,
    character: 0,
};

/// A text, with the positions of some of its places.
#[derive(Drop)]
pub(crate) struct Marked<'t> {
    pub text: &'t [u8],
    encoding: Encoding,
    marks: Vec<Position>,
}

impl<'t> Marked<'t> {
    /// Of this text. The error is that memory was refused, here and below.
    pub(crate) fn of(
        alloc: Global,
        text: &'t [u8],
        encoding: Encoding,
    ) -> Result<Self, AllocError> {
        let mut marks = Vec::new(alloc);
        let mut last = START;
        let mut from = 0_usize;
        for _mark in 0..text.len() / SPACING {
            marks.push(last)?;
            last = moved(text, encoding, last, (from, from.saturating_add(SPACING)));
            from = from.saturating_add(SPACING);
        }
        marks.push(last)?;
        Ok(Marked {
            text,
            encoding,
            marks,
        })
    }

    /// The position of a place.
    pub(crate) fn position(&self, place: usize) -> Position {
        let place = place.min(self.text.len());
        let number = place / SPACING;
        let mark = self.marks.get(number).copied().unwrap_or(START);
        let from = number.saturating_mul(SPACING);
        moved(self.text, self.encoding, mark, (from, place))
    }

    /// The place of a position.
    pub(crate) fn offset(&self, position: Position) -> usize {
        offset_of(self.text, self.encoding, position)
    }

    /// The line of a place, counted from 0.
    pub(crate) fn line(&self, place: usize) -> u64 {
        self.position(place).line
    }

    /// What stands between two places, as a range.
    pub(crate) fn range(
        &self,
        alloc: Global,
        (start, end): (usize, usize),
    ) -> Result<Value, AllocError> {
        range_between(alloc, self.position(start), self.position(end))
    }
}

// The position of a later place, from that of a place.
fn moved(
    text: &[u8],
    encoding: Encoding,
    position: Position,
    (from, to): (usize, usize),
) -> Position {
    let further = position_of(after(text, from), encoding, to.saturating_sub(from));
    let character = if further.line == 0 {
        position.character.saturating_add(further.character)
    } else {
        further.character
    };
    Position {
        line: position.line.saturating_add(further.line),
        character,
    }
}
