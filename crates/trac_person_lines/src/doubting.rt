//! Doubts in words.

use crate::characters::filling;
use crate::screen_line::Part::{Number, Words};
use crate::screen_line::{ScreenLine, front};
use std::alloc::Allocator;
use trac_rules::doubt::Doubt;
use trac_sight::{Sight, argument_of};

// Of a name or an argument so many columns are shown.
const TEXT_WIDTH: usize = 32;

/// Puts what is said of a doubt of the next step at the end of a line, in words, without its place. Of a long name or
/// argument the front is shown.
pub fn doubt_into<A: Allocator + Copy>(
    sight: &Sight<'_, A>,
    doubt: Doubt,
    line: &mut ScreenLine<A>,
) {
    match doubt {
        Doubt::Unused(k) => argument_into(sight, k, b" is not used: ", k, line),
        Doubt::NoNumber(k) => {
            argument_into(sight, k, b" has no number, and counts as 0: ", k, line)
        }
        Doubt::Nowhere(k) => argument_into(sight, k, b" is nowhere in the form ", 1, line),
        Doubt::Unended(1) => line.say(b"1 call was begun and never ended"),
        Doubt::Unended(count) => {
            line.put(&[
                Number(count as u64),
                Words(b" calls were begun and never ended"),
            ])
        }
        doubt => {
            let (before, number, after) = words_of(doubt);
            line.say(before);
            if let Some(number) = number {
                text_into(argument_of(sight, number), line);
            }
            line.say(after)
        }
    }
}

// What is said of a doubt that shows one argument at most: the words before it, its number, the words after it.
fn words_of(doubt: Doubt) -> (&'static [u8], Option<usize>, &'static [u8]) {
    match doubt {
        Doubt::NoPrimitive => (b"no primitive is named ", Some(0), b""),
        Doubt::FormUncalled => (b"", Some(0), b" is a form: call it by cl"),
        Doubt::NoForm => (b"no form is named ", Some(1), b""),
        Doubt::NoBlock => (b"", Some(1), b" names no block"),
        Doubt::NoResult => (b"the result does not fit, and gives nothing", None, b""),
        Doubt::Unclosed => (b"( is never closed", None, b""),
        Doubt::EndsNothing => (b") ends no call", None, b""),
        _ => (b"", None, b""),
    }
}

// That of the argument of this number something is so, and the argument that this is said with.
fn argument_into<A: Allocator + Copy>(
    sight: &Sight<'_, A>,
    number: usize,
    words: &[u8],
    shown: usize,
    line: &mut ScreenLine<A>,
) {
    line.put(&[Words(b"argument "), Number(number as u64), Words(b" of ")]);
    text_into(argument_of(sight, 0), line);
    line.say(words);
    text_into(argument_of(sight, shown), line)
}

/// The front of a text; of an empty one that it is empty.
pub(crate) fn text_into<A: Allocator + Copy>(text: &[u8], line: &mut ScreenLine<A>) {
    if text.is_empty() {
        line.say(b"(an empty text)");
        return;
    }
    let columns = line.columns().saturating_add(TEXT_WIDTH);
    line.show(front(text, filling(TEXT_WIDTH)));
    line.cut(columns)
}
