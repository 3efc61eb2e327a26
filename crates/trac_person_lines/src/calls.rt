//! A call with its value, in one line.

use crate::notes::refused;
use crate::screen_line::Part::{Number, Shown, Words};
use crate::screen_line::ScreenLine;
use crate::standing_line::call_into as shown_into;
use std::alloc::Allocator;
use trac_rules::refusal::Refusal;
use trac_sight::{Sight, gives_nothing, last_of};

// A call is set in by so many columns for each that is begun around it, and by those of so many calls at most.
const INDENT: &[u8] = b"  ";

const MOST_INDENTS: usize = 12;

/// Puts the call that is performed next at the end of a line, with the number of its step. So many calls are begun,
/// itself among them; it is set in by how many stand around it, the one that prints what is left of a text not counted.
pub fn call_into<A: Allocator + Copy>(
    step: u64,
    depth: usize,
    sight: &Sight<'_, A>,
    line: &mut ScreenLine<A>,
) {
    line.put(&[Number(step), Words(b"  ")]);
    indent_into(depth, line);
    if let Some((kind, arguments)) = &sight.begun {
        shown_into(*kind, arguments, line);
    }
}

/// Puts blanks at the end of a line, so that what follows begins beneath the call of this step in a line of
/// `call_into`.
pub fn beneath_into<A: Allocator + Copy>(step: u64, depth: usize, line: &mut ScreenLine<A>) {
    let digits = step.checked_ilog10().unwrap_or(0).saturating_add(1);
    for _ in 0..digits {
        line.say(b" ");
    }
    line.say(b"  ");
    indent_into(depth, line)
}

// Sets a line in, for so many calls that are begun.
fn indent_into<A: Allocator + Copy>(depth: usize, line: &mut ScreenLine<A>) {
    for _ in 0..depth.saturating_sub(2).min(MOST_INDENTS) {
        line.say(INDENT);
    }
}

/// What a call gave.
#[derive(Clone, Copy, PartialEq, Eq)]
pub enum Gave {
    /// An empty value.
    Nothing,
    /// A value that is its default argument.
    Default,
    /// Another value.
    Value,
    /// It was refused.
    Refused,
}

/// Puts what the call gave at the end of a line, and returns it: its value, and whether that is its default argument,
/// or why it was refused.
pub fn outcome_into<A: Allocator + Copy>(
    before: Before,
    why: Option<Refusal>,
    sight: &Sight<'_, A>,
    line: &mut ScreenLine<A>,
) -> Gave {
    if let Some(refusal) = why {
        line.put(&[Words(b": "), Words(refused(refusal))]);
        return Gave::Refused;
    }
    let value = before.value(sight);
    value_into(value, before, line);
    if value.is_empty() {
        Gave::Nothing
    } else if before.takes_default {
        Gave::Default
    } else {
        Gave::Value
    }
}

// Puts a value at the end of the line of its call. That it is empty is said in words that no shown value can follow; of
// a primitive whose value always is, nothing is said.
fn value_into<A: Allocator + Copy>(value: &[u8], before: Before, line: &mut ScreenLine<A>) {
    let words: &[u8] = match (before.takes_default, value.is_empty()) {
        (false, true) if before.gives_nothing => b"",
        (false, true) => b" has an empty value",
        (true, true) => b" defaults to an empty value",
        (false, false) => b" gives ",
        (true, false) => b" defaults to ",
    };
    line.put(&[Words(words), Shown(value)]);
}

/// What tells the value of a call when it is performed.
#[derive(Clone, Copy)]
pub struct Before {
    // how long the active text is without the `)` that ends the call
    active: usize,
    // how long the text is that the call stands in
    around: usize,
    // whether the value is the default argument
    takes_default: bool,
    // whether it is one of a primitive that never gives one
    gives_nothing: bool,
}

impl Before {
    /// Before a call, whose value is its default argument or not.
    pub fn of<A: Allocator + Copy>(sight: &Sight<'_, A>, takes_default: bool) -> Before {
        Before {
            active: sight.active.len().saturating_sub(1),
            around: sight.around.len(),
            takes_default,
            gives_nothing: gives_nothing(sight),
        }
    }

    // The value, after the call: what was added to the front of the active text, or to the end of the text around.
    fn value<'m, A: Allocator + Copy>(&self, sight: &Sight<'m, A>) -> &'m [u8] {
        let active = sight.active;
        if active.len() > self.active {
            return active.split_at(active.len() - self.active).0;
        }
        // The text that the call stood in is now the one that is gathered.
        let around = match &sight.begun {
            Some((_, arguments)) => last_of(arguments),
            None => sight.around,
        };
        around.split_at(around.len().min(self.around)).1
    }
}
