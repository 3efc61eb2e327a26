//! What a call makes of the texts.
ghost use Rattle.std.specs.Prelude.{◌≡◌, ◌+◌, ◌<◌, ◌≤◌, length, take, drop};
ghost use Rattle.trac_gap.specs.Ends.{item_count};
ghost use Rattle.trac_rules.specs.declared.limit.TheConstants.{TEXT_LIMIT};
ghost use Rattle.trac_rules.specs.Performing.{placed};
ghost use Rattle.trac_text.specs.Holding.{BeginsInnermost, bytes_in, texts_by};
ghost use Rattle.trac_text.specs.Moving.{with_value};

use crate::mark::Mark;
use crate::texts::Texts;
use std::alloc::Allocator;
use trac_gap::TwoEnds;
use trac_rules::kind::Kind;

/// Where a begun function begins.
#[derive(Clone, Copy)]
pub struct Beginning {
    /// The number of its mark, the first mark being number 0.
    pub number: usize,
    /// How many bytes of the neutral text stand before it.
    pub place: usize,
    /// Its kind.
    pub kind: Kind,
}

impl<E: TwoEnds<u8, A>, M: TwoEnds<Mark, A>, A: Allocator + Copy> Texts<E, M, A> {
    /// Deletes a `)`, the first byte of the active text, and the innermost function, which begins here, with its
    /// arguments. It takes no memory.
    pub fn end_function(&mut self, beginning: Beginning)
        requires closing { 0 < length self.old.texts.active }
        requires begins { BeginsInnermost self.old.texts beginning }
        ensures { self.new ≡ record self.old {
          texts = record self.old.texts {
            active = drop 1 self.old.texts.active;
            frames = drop 1 self.old.texts.frames;
          };
        } }
    {
        cut_function(&mut self.text, &mut self.marks, beginning);
        self.functions -= 1;
    }

    /// Puts a value where it goes by T-64's rule. The value of a neutral function goes to the current text, if it is
    /// not forced. Any other goes before the active text. There has to be room for it. It takes no memory.
    pub fn put_value(&mut self, kind: Kind, forced: bool, value: &[u8])
        requires room { bytes_in self.old.texts + length value.now ≤ self.old.text_room }
        requires limit { bytes_in self.old.texts + length value.now ≤ TEXT_LIMIT }
        ensures { self.new ≡ record self.old { texts = texts_by (placed kind forced value.now) self.old.texts } }
    {
        put_value(&mut self.text, kind, forced, value);
    }
}

// Cuts off the function that begins here, at the end of the text on the left, with its marks, and its `)`, the first
// byte on the right. It takes no memory.
fn cut_function<E: TwoEnds<u8, A>, M: TwoEnds<Mark, A>, A: Allocator + Copy>(
    text: &mut E,
    marks: &mut M,
    beginning: Beginning,
)
    requires closing { 1 ≤ length (E.ends text.old).right }
    requires place { beginning.place ≤ length (E.ends text.old).left }
    requires number { beginning.number ≤ length (M.ends marks.old).left }
    ensures text { E.ends text.new ≡ record (E.ends text.old) {
      left = take beginning.place (E.ends text.old).left;
      right = drop 1 (E.ends text.old).right;
    } }
    ensures marks { M.ends marks.new
        ≡ record (M.ends marks.old) { left = take beginning.number (M.ends marks.old).left } }
{
    text.cut_right(1);
    text.cut_left(text.left().len() - beginning.place);
    marks.cut_left(marks.left().len() - beginning.number);
}

// Puts a value where it goes by T-64's rule. The value of a neutral function goes at the end of the text on the left,
// if it is not forced. Any other goes before the text on the right. There has to be room for it. It takes no memory.
fn put_value<E: TwoEnds<u8, A>, A: Allocator + Copy>(
    text: &mut E,
    kind: Kind,
    forced: bool,
    value: &[u8],
)
    requires { item_count (E.ends text.old) + length value.now ≤ (E.ends text.old).capacity }
    ensures { E.ends text.new ≡ with_value kind forced value.now (E.ends text.old) }
{
    match kind {
        Kind::Neutral if !forced => text.put_left(value),
        Kind::Neutral | Kind::Active => text.put_right(value),
    }
}
