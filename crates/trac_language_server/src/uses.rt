//! Where a form is defined and used.
use crate::forms::places_of;
use crate::marked::Marked;
use crate::matching::highlight;
use crate::parts::after;
use serde_json::{Value, json};
use std::alloc::{AllocError, Global};
use trac_mentions::Mentions;

// The numbers that the protocol has for what is highlighted: it is read, or written.
const READ: u64 = 2;

const WRITTEN: u64 = 3;

/// Which places of a form are asked for.
#[derive(Clone, Copy, Debug, PartialEq, Eq)]
pub(crate) enum Wanted {
    /// Those where it is defined.
    Definitions,
    /// Those where it is used otherwise.
    Uses,
    /// All.
    All,
}

impl Wanted {
    // Whether a place is asked for, where the form is defined or not.
    fn takes(self, defines: bool) -> bool {
        match self {
            Wanted::Definitions => defines,
            Wanted::Uses => !defines,
            Wanted::All => true,
        }
    }
}

/// The places of the form of this name, in the file of this one. The error is that memory was refused, here and below.
pub(crate) fn locations_of(
    alloc: Global,
    (uri, marked): (&str, &Marked<'_>),
    known: &Mentions,
    name: &[u8],
    wanted: Wanted,
) -> Result<Value, AllocError> {
    let places = places_of(alloc, known, name)?;
    let mut locations = Vec::new(alloc);
    for (place, defines) in places.as_slice() {
        if wanted.takes(*defines) {
            let range = marked.range(alloc, part_at(marked.text, *place, name))?;
            locations.push(json!(in alloc; {"uri": uri, "range": range})?)?;
        }
    }
    Ok(Value::Array(locations))
}

/// The places where a form's name is written, to be seen.
pub(crate) fn highlights_of(
    alloc: Global,
    marked: &Marked<'_>,
    known: &Mentions,
    name: &[u8],
) -> Result<Value, AllocError> {
    let places = places_of(alloc, known, name)?;
    let mut parts = Vec::new(alloc);
    for (place, defines) in places.as_slice() {
        let kind = if *defines { WRITTEN } else { READ };
        let part = part_at(marked.text, *place, name);
        parts.push(highlight(alloc, marked, part, kind)?)?;
    }
    Ok(Value::Array(parts))
}

// From where to where a form's name stands that a call has from this place; the first byte, if it is made.
fn part_at(text: &[u8], place: usize, name: &[u8]) -> (usize, usize) {
    let len = if after(text, place).starts_with(name) {
        name.len()
    } else {
        1
    };
    (place, place.saturating_add(len))
}
