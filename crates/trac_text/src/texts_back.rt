//! The way back over the rules of scanning.
ghost use Rattle.std.specs.Prelude.{◌≡◌, ◌+◌, ◌-◌, ◌<◌, ◌≤◌, ◌∷◌, ◌++◌, length, take, reverse, IsSome, Some};
ghost use Rattle.trac_gap.specs.Ends.{item_count};
ghost use Rattle.trac_rules.specs.Records.{Begun, Comma, Quoted, ending_of, moved_back, restored};
ghost use Rattle.trac_text.specs.Holding.{CanHold, CanHoldAgain, alone};
ghost use Rattle.trac_text.specs.MovingBack.{beginning_by, last_begun, without_protected};
ghost use Rattle.trac_text.specs.Ruled.{said_by};

use crate::front::beginning_of;
use crate::mark::Mark;
use crate::scanning::Short;
use crate::texts::Texts;
use std::alloc::Allocator;
use trac_gap::TwoEnds;
use trac_rules::byte::{CLOSING, OPENING};

impl<E: TwoEnds<u8, A>, M: TwoEnds<Mark, A>, A: Allocator + Copy> Texts<E, M, A> {
    /// Goes back over a rule of scanning that destroyed this. There has to be room for the texts before it. It takes no
    /// memory.
    #[inline(always)]
    pub fn take_back(&mut self, short: Short)
        requires { CanHoldAgain self.old (restored (said_by short) (alone self.old.texts)) }
        ensures back { restored (said_by short) (alone self.old.texts) ≡ Some (alone self.new.texts) }
        ensures rooms { self.new ≡ record self.old { texts = self.new.texts } }
    {
        match short {
            Short::Moved => self.move_back(1),
            Short::Comma => self.gather_again(),
            Short::Begun => self.take_beginning_back(),
            Short::Quoted { inner, closed } => self.unprotect(inner, closed),
            Short::Deleted(byte) => self.undelete(byte),
        }
    }

    /// Moves the last n bytes of the current text, which has to hold so many, back before the active text. It takes no
    /// memory.
    pub fn move_back(&mut self, n: usize)
        requires { IsSome (moved_back n (alone self.old.texts)) }
        ensures back { moved_back n (alone self.old.texts) ≡ Some (alone self.new.texts) }
        ensures rooms { self.new ≡ record self.old { texts = self.new.texts } }
    {
        self.text.shift_right(n);
    }

    /// Puts a byte that was deleted back before the active text. There has to be room for it. It takes no memory.
    pub fn undelete(&mut self, byte: u8)
        requires { CanHold self.old (record self.old.texts { active = byte ∷ self.old.texts.active }) }
        ensures { self.new
            ≡ record self.old { texts = record self.old.texts { active = byte ∷ self.old.texts.active } } }
    {
        self.text.push_right(byte);
    }

    /// Moves a protected text of this length, the end of the current text, back before the active text. Puts its `(`
    /// before it and, if it was closed, a `)` after it. There has to be room for these. It takes no memory.
    pub fn unprotect(&mut self, inner: usize, closed: bool)
        requires { CanHoldAgain self.old (restored (Quoted inner closed) (alone self.old.texts)) }
        ensures back { restored (Quoted inner closed) (alone self.old.texts) ≡ Some (alone self.new.texts) }
        ensures rooms { self.new ≡ record self.old { texts = self.new.texts } }
    {
        give_protected_back(&mut self.text, inner, closed);
    }

    /// Gathers the argument again that was finished last, and puts its `,` back before the active text. There has to be
    /// room for it. It takes no memory.
    pub fn gather_again(&mut self)
        requires { CanHoldAgain self.old (restored Comma (alone self.old.texts)) }
        ensures back { restored Comma (alone self.old.texts) ≡ Some (alone self.new.texts) }
        ensures rooms { self.new ≡ record self.old { texts = self.new.texts } }
    {
        pop_mark(&mut self.text, &mut self.marks, b",");
    }

    /// Takes the innermost function away, which has one empty argument, and puts its beginning back before the active
    /// text. There has to be room for it. It takes no memory.
    pub fn take_beginning_back(&mut self)
        requires { CanHoldAgain self.old (restored Begun (alone self.old.texts)) }
        ensures back { restored Begun (alone self.old.texts) ≡ Some (alone self.new.texts) }
        ensures rooms { self.new ≡ record self.old { texts = self.new.texts } }
    {
        pop_beginning(&mut self.text, &mut self.marks);
        self.functions -= 1;
    }
}

// Moves a protected text of this length, which is at the end of the left, back to the right. Puts its `(` before it
// and, if it was closed, a `)` after it. It takes no memory.
fn give_protected_back<A: Allocator + Copy, E: TwoEnds<u8, A>>(
    text: &mut E,
    inner: usize,
    closed: bool,
)
    requires length { inner ≤ length (E.ends text.old).left }
    requires room { item_count (E.ends text.old) + length (ending_of closed) < (E.ends text.old).capacity }
    ensures { E.ends text.new ≡ without_protected inner closed (E.ends text.old) }
{
    if closed {
        text.push_right(CLOSING);
    }
    text.shift_right(inner);
    text.push_right(OPENING);
}

// Takes the last mark away, and puts these bytes before the text on the right. It takes no memory.
fn pop_mark<A: Allocator + Copy, E: TwoEnds<u8, A>, M: TwoEnds<Mark, A>>(
    text: &mut E,
    marks: &mut M,
    bytes: &[u8],
)
    requires marks { 0 < length (M.ends marks.old).left }
    requires room { item_count (E.ends text.old) + length bytes.now ≤ (E.ends text.old).capacity }
    ensures text { E.ends text.new ≡ record (E.ends text.old) { right = bytes.now ++ (E.ends text.old).right } }
    ensures marks { M.ends marks.new
        ≡ record (M.ends marks.old) { left = take (length (M.ends marks.old).left - 1) (M.ends marks.old).left } }
{
    marks.cut_left(1);
    text.put_right(bytes);
}

// Takes the last mark away, which begins a function, and puts that beginning before the text on
// the right. It takes no memory.
fn pop_beginning<A: Allocator + Copy, E: TwoEnds<u8, A>, M: TwoEnds<Mark, A>>(
    text: &mut E,
    marks: &mut M,
)
    requires begins { IsSome (last_begun (reverse (M.ends marks.old).left)) }
    requires room { item_count (E.ends text.old) + length (beginning_by (last_begun (reverse (M.ends marks.old).left)))
        ≤ (E.ends text.old).capacity }
    ensures text { E.ends text.new ≡ record (E.ends text.old) {
      right = beginning_by (last_begun (reverse (M.ends marks.old).left)) ++ (E.ends text.old).right;
    } }
    ensures marks { M.ends marks.new
        ≡ record (M.ends marks.old) { left = take (length (M.ends marks.old).left - 1) (M.ends marks.old).left } }
{
    let Some(last) = marks.left().last() else {
        unreachable!()
    };
    let Some(kind) = last.frame else {
        unreachable!()
    };
    pop_mark(text, marks, beginning_of(kind));
}
