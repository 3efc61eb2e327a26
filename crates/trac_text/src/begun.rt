//! The begun functions of a neutral text, one after another from the outermost on.
ghost use Rattle.std.specs.Prelude.{◌≡◌, ◌+◌, ◌<◌, length, take, reverse};
ghost use Rattle.trac_text.specs.Begun.{IsNextFunction};
ghost use Rattle.trac_text.specs.Cuts.{function_count};
ghost use Rattle.trac_text.specs.Neutral.{AreMarks, neutral_of};

use crate::args::{Args, end_at};
use crate::frames::innermost_in;
use crate::mark::Mark;
use std::marker::Model;
use trac_rules::kind::Kind;

/// The begun functions of a neutral text that are still to come, from the outermost on: each its kind, and all its
/// arguments, of which the last of the innermost is being gathered. Each takes time for its own marks alone.
#[derive(Drop)]
pub struct BegunFunctions<'a> {
    text: &'a [u8],
    // the number of the mark at which the next one begins, or how many marks there are
    next: usize,
    marks: &'a [Mark],
}

impl<'a> Model for BegunFunctions<'a> {
    ghost use Rattle.std.specs.Prelude.{List};
    ghost use Rattle.std.specs.Coded.{coded_list};
    ghost use Rattle.trac_rules.specs.Codes.{frame_code};
    ghost use Rattle.trac_rules.specs.State.{Frame};
    ghost use Rattle.trac_text.specs.Begun.{IsNextFunction, frames_from};
    ghost use Rattle.trac_text.specs.Neutral.{IsOrdered};

    ghost Value = { List Frame };

    ghost coded = { coded_list frame_code };

    ghost view = { λ b. frames_from b.next (record { text = b.text.now; marks = b.marks.now }) };

    ghost invariant = { λ b.
        (IsOrdered (record { text = b.text.now; marks = b.marks.now })) × (IsNextFunction b.marks.now b.next) };
}

impl<'a> BegunFunctions<'a> {
    /// Those of this text with these marks, in order, as `NeutralText::new` asks for them. Nothing is copied.
    pub fn new(text: &'a [u8], marks: &'a [Mark]) -> BegunFunctions<'a>
        requires { AreMarks (length text.now) (reverse marks.now) }
        ensures { result ≡ reverse (neutral_of (record { text = text.now; marks = marks.now })).frames }
    {
        BegunFunctions {
            text,
            marks,
            next: 0,
        }
    }
}

impl<'a> Iterator for BegunFunctions<'a> {
    ghost use Rattle.std.specs.Iterator.{item_count};
    ghost use Rattle.trac_text.specs.Begun.{GivesFrame};

    type Item = (Kind, Args<'a>);

    ghost next_gives = { GivesFrame };

    ghost remaining = { item_count (λ b. b) };

    fn next(&mut self) -> Option<(Kind, Args<'a>)> {
        if self.next == self.marks.len() {
            return None;
        }
        self.next = next_function(self.marks, self.next);
        // The next one is the innermost of the text before the mark at which the one after it begins. If there is no
        // such mark, it is the innermost of the whole text.
        let place = end_at(self.text.len(), self.marks, self.next);
        let innermost = innermost_in(
            self.text.split_at(place).0,
            self.marks.split_at(self.next).0,
        )?;
        Some((innermost.kind, innermost.arguments))
    }
}

// The number of the first mark after this one that begins a function, or how many marks there are.
#[tactic(auto, using(crate::proofs::Walking::argument_counts))]
fn next_function(marks: &[Mark], from: usize) -> usize
    requires { from < length marks.now }
    ensures next { IsNextFunction marks.now result }
    ensures count { function_count (take result marks.now) ≡ function_count (take (from + 1) marks.now) }
{
    let mut place = from + 1;
    while place < marks.len() {
        if marks[place].frame.is_some() {
            return place;
        }
        place += 1;
    }
    place
}
