//! The bytes that a call was given.

use crate::screen_line::Part::{Number, Words};
use crate::screen_line::ScreenLine;
use std::alloc::{AllocError, Allocator};
use trac_sight::{Sight, performed_in};
use trac_step::Args;

/// The only byte that the call which the next step performs was given after its name. Returns the number of its
/// argument, and which byte of that it is, from 1. None if the call was given none or several, or if no call is
/// performed.
pub fn only_byte<A: Allocator + Copy>(sight: &Sight<'_, A>) -> Option<(u64, u64)> {
    let arguments = performed_in(sight)?;
    let mut only = None;
    for i in 1..arguments.count() {
        match arguments.get(i).len() {
            0 => {}
            1 if only.is_none() => only = Some((i as u64, 1)),
            _ => return None,
        }
    }
    only
}

/// Puts a line at the end of a text that says which bytes this call was given, as `y` is told of them. The error is
/// that memory was refused.
pub fn given_into<A: Allocator + Copy>(
    alloc: A,
    sight: &Sight<'_, A>,
    out: &mut Vec<u8, A>,
) -> Result<(), AllocError> {
    let mut line = ScreenLine::new(alloc);
    match performed_in(sight) {
        Some(arguments) => say_given(arguments, &mut line),
        None => line.say(b"no call is performed here that was given a byte"),
    }
    line.end_into(out)
}

// Which bytes there are after the name.
fn say_given<A: Allocator + Copy>(arguments: &Args<'_>, line: &mut ScreenLine<A>) {
    let mut count = 0_usize;
    for i in 1..arguments.count() {
        let len = arguments.get(i).len();
        if len > 0 {
            line.say(if count == 0 { b"which byte? " } else { b"; " });
            line.put(&[Words(b"y . "), Number(i as u64), Words(b" 1")]);
            if len > 1 {
                line.put(&[Words(b" to "), Number(len as u64)]);
            }
            count = count.saturating_add(1);
        }
    }
    if count == 0 {
        line.say(b"this call was given no byte");
    }
}
