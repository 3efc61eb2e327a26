//! A form before a change and after it.

use crate::characters::filling;
use crate::form_list::items_into;
use crate::screen_line::{ScreenLine, WIDTH};
use std::alloc::{AllocError, Allocator};
use trac_forms::Form;

// So many columns are filled at most.
const ROOM: usize = WIDTH;

// If the change begins after so many items, those are left out but for the last of them.
const FIRST_MOST: usize = 32;

const LAST_LEFT: usize = 16;

/// Puts two lines at the end of a text: a form before a change and after it, each cut to the screen. A long one is
/// shown from a little before the first item that differs. The error is that memory was refused, here and below.
pub fn change_into<A: Allocator + Copy>(
    alloc: A,
    before: Option<&Form<A>>,
    after: Option<&Form<A>>,
    out: &mut Vec<u8, A>,
) -> Result<(), AllocError> {
    let from = match (before, after) {
        (Some(before), Some(after)) => shown_from(first_difference(before, after)),
        _ => 0,
    };
    side_into(alloc, b"before  ", before, from, out)?;
    side_into(alloc, b"after   ", after, from, out)
}

// A form on one side of the change.
fn side_into<A: Allocator + Copy>(
    alloc: A,
    label: &[u8],
    form: Option<&Form<A>>,
    from: usize,
    out: &mut Vec<u8, A>,
) -> Result<(), AllocError> {
    let mut line = ScreenLine::new(alloc);
    line.say(label);
    match form {
        Some(form) => {
            let cut: &[u8] = if from > 0 { b".." } else { b"" };
            line.say(cut);
            items_into(alloc, form, from, filling(ROOM), &mut line)?;
        }
        None => line.say(b"no form of this name"),
    }
    line.end_into(out)
}

// The first item that is shown if the change begins at this one.
fn shown_from(difference: usize) -> usize {
    if difference > FIRST_MOST {
        difference - LAST_LEFT
    } else {
        0
    }
}

// The first place at which two forms differ, in their items or in where the pointer stands.
fn first_difference<A: Allocator + Copy>(one: &Form<A>, other: &Form<A>) -> usize {
    let len = one.len().min(other.len());
    let items = (0..len).find(|place| one.item(*place) != other.item(*place));
    let pointers = one.pointer().min(other.pointer());
    match items {
        Some(place) if one.pointer() == other.pointer() => place,
        Some(place) => place.min(pointers),
        None if one.pointer() == other.pointer() => len,
        None => len.min(pointers),
    }
}
