//! Why calls give what they give, in words.

use crate::doubting::text_into;
use crate::reason::{Lack, Reason, Relation};
use crate::screen_line::Part::{Number, Words};
use crate::screen_line::ScreenLine;
use std::alloc::Allocator;

/// Puts why a call gives what it gives at the end of a line, in words. Of a long name or text the front is shown.
pub fn reason_into<A: Allocator + Copy>(reason: Reason<'_>, line: &mut ScreenLine<A>) {
    match reason {
        Reason::NoPrimitive(name) => around_into(b"no primitive is named ", name, b"", line),
        Reason::FormUncalled(name) => around_into(b"", name, b" is a form: call it by cl", line),
        Reason::NoForm(name) => around_into(b"no form is named ", name, b"", line),
        Reason::OfForm(lack, name) => {
            let (before, after) = words_of_lack(lack);
            around_into(before, name, after, line)
        }
        Reason::NotAhead(text, name) => {
            text_into(text, line);
            around_into(b" is nowhere after the pointer of ", name, b"", line)
        }
        Reason::RightAhead(text, name) => {
            text_into(text, line);
            around_into(b" stands right at the pointer of ", name, b"", line)
        }
        Reason::ByZero => line.say(b"it divides by 0"),
        Reason::NoResult => line.say(b"the result does not fit"),
        Reason::Compared(relation, first, second) => compared_into(relation, first, second, line),
    }
}

/// Whether the line of a call shows two texts that it compares so that both are seen: they are not empty, and no blank
/// begins or ends them.
pub fn are_plain(first: &[u8], second: &[u8]) -> bool {
    !is_edged(first) && !is_edged(second)
}

// Words before and after a text.
fn around_into<A: Allocator + Copy>(
    before: &[u8],
    text: &[u8],
    after: &[u8],
    line: &mut ScreenLine<A>,
) {
    line.say(before);
    text_into(text, line);
    line.say(after)
}

// What stands before and after the name of a form that lacks something.
fn words_of_lack(lack: Lack) -> (&'static [u8], &'static [u8]) {
    match lack {
        Lack::Empty => (b"the form ", b" is empty"),
        Lack::AtEnd => (b"the pointer of ", b" is at its end"),
        Lack::AtStart => (b"the pointer of ", b" is at its start"),
        Lack::GapsAhead => (b"after the pointer of ", b" stand gaps alone"),
        Lack::GapsBehind => (b"before the pointer of ", b" stand gaps alone"),
        Lack::Unfilled => (
            b"after the pointer of ",
            b" stand gaps alone, and nothing fills them",
        ),
        Lack::GapHere => (b"a gap stands right at the pointer of ", b""),
        Lack::Unasked => (b"no byte of ", b" is asked for"),
    }
}

// How two texts are related.
fn compared_into<A: Allocator + Copy>(
    relation: Relation,
    first: &[u8],
    second: &[u8],
    line: &mut ScreenLine<A>,
) {
    let (between, after): (&[u8], &[u8]) = match relation {
        Relation::Same => (b" and ", b" are the same"),
        Relation::Different => (b" and ", b" differ"),
        Relation::Greater => (b" is greater than ", b""),
        Relation::NotGreater => (b" is at most ", b""),
    };
    let is_number = matches!(relation, Relation::Greater | Relation::NotGreater);
    side_into(is_number, first, line);
    line.say(between);
    side_into(is_number, second, line);
    line.say(after)
}

// One of two numbers or texts that are compared. A number without digits counts as 0.
fn side_into<A: Allocator + Copy>(is_number: bool, text: &[u8], line: &mut ScreenLine<A>) {
    if is_number && text.is_empty() {
        line.say(b"0")
    } else if text.is_empty() {
        line.say(b"nothing")
    } else if text == b" ".as_slice() {
        line.say(b"a blank")
    } else if text.iter().all(|byte| *byte == b' ') {
        line.put(&[Number(text.len() as u64), Words(b" blanks")])
    } else if is_edged(text) {
        around_into(b"\"", text, b"\"", line)
    } else {
        text_into(text, line)
    }
}

// Whether a text is empty, or a blank begins or ends it.
fn is_edged(text: &[u8]) -> bool {
    matches!(text, [] | [b' ', ..] | [.., b' '])
}
