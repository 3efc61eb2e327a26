//! The way back over a call.
ghost use Rattle.std.specs.Prelude.{◌≡◌, ◌+◌, ◌≤◌, ◌++◌, length, map, option_and_then, IsSomeAnd, Some};
ghost use Rattle.trac_gap.specs.Ends.{item_count};
ghost use Rattle.trac_rules.specs.Records.{begun_again, value_taken};
ghost use Rattle.trac_text.specs.Holding.{CanHold};
ghost use Rattle.trac_text.specs.Pieces.{all_texts};
ghost use Rattle.trac_text.specs.Marks.{function_marks};
ghost use Rattle.trac_text.specs.MovingBack.{HasValue, before_call, without_value};

use crate::emptying::put_function;
use crate::mark::Mark;
use crate::pieces::PiecesRef;
use crate::texts::Texts;
use std::alloc::Allocator;
use trac_gap::TwoEnds;
use trac_rules::byte::CLOSING;
use trac_rules::kind::Kind;

impl<E: TwoEnds<u8, A>, M: TwoEnds<Mark, A>, A: Allocator + Copy> Texts<E, M, A> {
    /// Takes a value of n bytes off again, from the front of the active text if it was to be scanned, or else from the
    /// end of the current text. Begins the function of this kind with these arguments again, and puts its `)` before
    /// the active text. There has to be room for these. It takes no memory.
    pub fn begin_again(&mut self, kind: Kind, arguments: &PiecesRef<'_>, scanned: bool, n: usize)
        requires { IsSomeAnd (option_and_then (begun_again kind (all_texts arguments.now))
            (value_taken scanned n self.old.texts)) (λ t. CanHold self.old t) }
        ensures back { option_and_then (begun_again kind (all_texts arguments.now))
            (value_taken scanned n self.old.texts) ≡ Some self.new.texts }
        ensures rooms { self.new ≡ record self.old { texts = self.new.texts } }
    {
        put_call(&mut self.text, &mut self.marks, kind, arguments, scanned, n);
        self.functions += 1;
    }
}

// Takes a value of n bytes off again, from where it went. Puts a `)` before the text on the right. Puts the function
// that this `)` ends, with its arguments, at the end of the text on the left. There has to be room for these. It takes
// no memory.
fn put_call<E: TwoEnds<u8, A>, M: TwoEnds<Mark, A>, A: Allocator + Copy>(
    text: &mut E,
    marks: &mut M,
    kind: Kind,
    arguments: &PiecesRef<'_>,
    scanned: bool,
    n: usize,
)
    requires value { HasValue scanned n (E.ends text.old) }
    requires text_room { item_count (before_call scanned n (all_texts arguments.now) (E.ends text.old))
        ≤ (E.ends text.old).capacity }
    requires mark_room { item_count (M.ends marks.old) + 1 + length arguments.now.finished
        ≤ (M.ends marks.old).capacity }
    ensures text { E.ends text.new ≡ before_call scanned n (all_texts arguments.now) (E.ends text.old) }
    ensures marks { M.ends marks.new ≡ record (M.ends marks.old) {
      left = (M.ends marks.old).left ++ function_marks (length (without_value scanned n (E.ends text.old)).left) kind
          (map length arguments.now.finished);
    } }
{
    // A value that was to be scanned went before the text on the right, any other after the one on the left.
    if scanned {
        text.cut_right(n);
    } else {
        text.cut_left(n);
    }
    text.push_right(CLOSING);
    put_function(text, marks, kind, arguments);
}
