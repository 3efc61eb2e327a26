//! The arguments of a function, borrowed from the neutral text.
ghost use Rattle.std.specs.Prelude.{◌≡◌, ℕ, ◌≤◌, ◌+◌, ◌-◌, ◌<◌, ◌^◌, ◌++◌, List, [], length, map, get_or, take};
ghost use Rattle.std.specs.List.{concat};
ghost use Rattle.trac_text.specs.Cuts.{AreCuts, cut, end_of};

use crate::mark::Mark;
use std::alloc::Allocator;
use std::marker::Model;
use trac_gap::SlidingBuf;

/// Arguments that lie one after another in a text: seen as the list of these texts.
#[derive(Drop)]
pub struct Args<'a> {
    from: usize,
    text: &'a [u8],
    marks: &'a [Mark],
}

impl<'a> Model for Args<'a> {
    ghost Value = { List (List ℕ) };

    ghost view = { λ a. cut a.from a.marks.now a.text.now };

    ghost invariant = { λ a. AreCuts a.from a.marks.now (length a.text.now) };
}

impl<'a> Args<'a> {
    /// The text from the place `from` on, cut at the places of the marks: one argument more than there are marks.
    /// Places count bytes. They may not fall, nor pass the end of the text. Nothing is copied.
    pub fn new(text: &'a [u8], marks: &'a [Mark], from: usize) -> Args<'a>
        requires { AreCuts from marks.now (length text.now) }
        ensures { result ≡ cut from marks.now text.now }
    {
        Args { text, marks, from }
    }

    /// How many arguments there are, at least one: as T-64 has it, a call without text has one empty argument.
    pub fn count(&self) -> usize
        ensures { result ≡ length self.now }
    {
        self.marks.len() + 1
    }

    /// How many commas stand between the arguments: one less than there are arguments.
    pub fn comma_count(&self) -> usize
        ensures { result + 1 ≡ length self.now }
    {
        self.marks.len()
    }

    /// The argument of this number, from 0 on; empty past the last, as T-64 has it.
    pub fn get(&self, i: usize) -> &'a [u8]
        ensures { result.now ≡ get_or self.now i [] }
    {
        if i > self.marks.len() {
            return &[];
        }
        let start = if i == 0 {
            self.from
        } else {
            self.marks[i - 1].place
        };
        let end = end_at(self.text.len(), self.marks, i);
        self.text.split_at(end).0.split_at(start).1
    }

    /// Puts the lengths of all arguments but the last at the end of a list that has room for them, in one pass over the
    /// marks. They have fewer than 2^32 bytes together. It takes no memory.
    pub fn put_lengths<A: Allocator>(&self, commas: &mut SlidingBuf<u32, A>)
        requires short { length (concat self.now) < 2 ^ 32 }
        requires room { length commas.old.items + (length self.now - 1) ≤ commas.old.capacity }
        ensures { commas.new.items ≡ commas.old.items ++ map length (take (length self.now - 1) self.now) }
    {
        let mut start = self.from;
        for mark in self.marks {
            commas.push((mark.place - start) as u32);
            start = mark.place;
        }
    }

    /// The bytes of all arguments, one after another. Nothing is copied.
    pub fn joined(&self) -> &'a [u8]
        ensures { result.now ≡ concat self.now }
    {
        self.text.split_at(self.from).1
    }
}

// Where the argument of this number ends, in a text of this length.
pub(crate) fn end_at(end: usize, marks: &[Mark], i: usize) -> usize
    ensures { result ≡ end_of end marks.now i }
{
    if i < marks.len() { marks[i].place } else { end }
}
