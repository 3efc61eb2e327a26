//! Where a walk stands, in one line.

use crate::screen_line::Part::{Number, Shown, Words};
use crate::screen_line::{ScreenLine, front};
use std::alloc::{AllocError, Allocator};
use trac_sight::Sight;
use trac_step::{Args, Kind};
use trac_text::front::beginning_of;
use trac_text::matching::match_in;

/// Puts a line at the end of a text: the number of the next step, which is this, and what that step does. The error is
/// that memory was refused.
pub fn standing_into<A: Allocator + Copy>(
    alloc: A,
    step: u64,
    sight: &Sight<'_, A>,
    out: &mut Vec<u8, A>,
) -> Result<(), AllocError> {
    let mut line = ScreenLine::new(alloc);
    next_into(step, sight, &mut line);
    line.end_into(out)
}

/// The number of the next step, which is this, and what that step does: the call that it performs, or the
/// rule of scanning that it follows.
pub fn next_into<A: Allocator + Copy>(step: u64, sight: &Sight<'_, A>, line: &mut ScreenLine<A>) {
    line.put(&[Number(step), Words(b"  ")]);
    match (sight.active, &sight.begun) {
        ([b')', ..], Some((kind, arguments))) => call_into(*kind, arguments, line),
        ([b',', ..], Some((kind, arguments))) => {
            line.say(b"\",\" ends an argument of ");
            begun_into(*kind, arguments, line);
        }
        ([b')', ..], None) => line.say(b"\")\" outside any call is deleted"),
        ([b',', ..], None) => line.say(b"\",\" outside any call is deleted"),
        (active, _) => anywhere_into(active, line),
    }
}

// What the next step does wherever it is.
fn anywhere_into<A: Allocator + Copy>(active: &[u8], line: &mut ScreenLine<A>) {
    match active {
        [] => line.say(b"nothing is left: the idle program is loaded"),
        [b'(', rest @ ..] => quoted_into(words_of_opening(rest), active, line),
        [b'#', b'(', ..] => quoted_into(b"\"#(\" begins a call: ", active, line),
        [b'#', b'#', b'(', ..] => quoted_into(b"\"##(\" begins a call: ", active, line),
        [b'\r' | b'\n', rest @ ..] => quoted_into(b"a line end is deleted, before: ", rest, line),
        [b'\t', rest @ ..] => quoted_into(b"a tab is deleted, before: ", rest, line),
        active => {
            let first = front(active, 1);
            let taken = b"\" is taken as it is: ";
            line.put(&[Words(b"\""), Shown(first), Words(taken), Shown(active)])
        }
    }
}

// What is said of a `(` that stands before this text.
fn words_of_opening(rest: &[u8]) -> &'static [u8] {
    match match_in(rest) {
        Some(_) => b"\"(\" protects what stands up to its \")\": ",
        None => b"\"(\" has no \")\", and protects all the rest: ",
    }
}

// Words, and what the active text goes on with.
fn quoted_into<A: Allocator + Copy>(words: &[u8], text: &[u8], line: &mut ScreenLine<A>) {
    line.put(&[Words(words), Shown(text)]);
}

/// Puts a call with its arguments at the end of a line.
pub fn call_into<A: Allocator + Copy>(kind: Kind, arguments: &Args<'_>, line: &mut ScreenLine<A>) {
    begun_into(kind, arguments, line);
    line.say(b")");
}

/// Puts a function with its arguments so far at the end of a line.
pub fn begun_into<A: Allocator + Copy>(kind: Kind, arguments: &Args<'_>, line: &mut ScreenLine<A>) {
    line.say(beginning_of(kind));
    for i in 0..arguments.count() {
        if line.is_full() {
            return;
        }
        if i > 0 {
            line.say(b",");
        }
        line.show_argument(arguments.get(i));
    }
}
