//! Blocks: forms that were put aside together, with their names. Only the room of a block takes memory,
//! and that when the block is made.
ghost use Rattle.std.specs.Prelude.{◌≡◌, ◌-◌, ◌==◌, ◌<◌, ◌≤◌, ◌++◌, ◌∷◌, [], false, length, slice_get, IfOk};
ghost use Rattle.std.specs.Prelude.{IsOkUnless, MatchOption, Some};
ghost use Rattle.std.specs.List.{list_any};
ghost use Rattle.std.specs.Str.{bytes_eq};
ghost use Rattle.trac_forms.specs.Stored.{AreApart};

use crate::error::FormError;
use crate::form::Form;
use std::alloc::{Allocator, Global};
use std::marker::Model;

/// Forms with their names, in the order in which they came into the block. It is seen as the list of these pairs, and
/// beside it the number of spare places, by which more can come in without memory. No name stands twice in it.
#[derive(Drop)]
pub struct Block<A: Allocator + Copy = Global> {
    pub(crate) entries: Vec<(Vec<u8, A>, Form<A>), A>,
}

impl<A: Allocator + Copy> Model for Block<A> {
    ghost use Rattle.trac_forms.specs.Stored.{AreApart, Gathered, gathered_code};
    ghost use Rattle.trac_forms.specs.Table.{named, places_left};

    ghost Value = { Gathered };

    ghost coded = { gathered_code };

    ghost view = { λ b. record { held = named (λ k. k.items) b.entries.items; room = places_left b.entries } };

    ghost invariant = { λ b. AreApart (named (λ k. k.items) b.entries.items) };
}

impl<A: Allocator + Copy> Block<A> {
    /// A block of no forms, with spare places for at least `n`. Refused with `Memory` if the allocator refuses.
    pub fn with_room(alloc: A, n: usize) -> Result<Self, FormError>
        ensures none { IfOk result (λ b. b.held ≡ []) }
        ensures room { IfOk result (λ b. n ≤ b.room) }
        ensures err { IsOkUnless result FormError.Memory }
    {
        Ok(Block {
            entries: Vec::with_capacity(alloc, n)?,
        })
    }

    /// How many forms the block holds.
    pub fn len(&self) -> usize
        ensures len { result ≡ length self.now.held }
        ensures distinct { AreApart self.now.held }
    {
        self.entries.len()
    }

    /// Whether the block holds no form.
    pub fn is_empty(&self) -> bool
        ensures { result ≡ (length self.now.held == 0) }
    {
        self.len() == 0
    }

    /// The form of this number, from 0 on, in the block's order, and its name; `None` past the last.
    pub fn get(&self, i: usize) -> Option<(&[u8], &Form<A>)>
        ensures { MatchOption result (length self.now.held ≤ i)
            (λ entry. slice_get self.now.held i ≡ Some (entry.0.now, entry.1.now)) }
    {
        let (name, form) = self.entries.get(i)?;
        Some((name.as_slice(), form))
    }

    /// Puts a form under a name after all others. A place has to be spare, which it takes, and no form of the block may
    /// have this name.
    pub fn push(&mut self, name: Vec<u8, A>, form: Form<A>)
        requires room { 0 < self.old.room }
        requires other { list_any (λ entry. bytes_eq name.items entry.0) self.old.held ≡ false }
        ensures { self.new ≡ record { held = self.old.held ++ (name.items, form) ∷ []; room = self.old.room - 1 } }
    {
        self.entries.push_reserved((name, form));
    }

    /// Takes the last form away with its name, and returns both; `None` if the block holds no forms. It takes no spare
    /// place.
    pub fn pop(&mut self) -> Option<(Vec<u8, A>, Form<A>)>
        ensures last { MatchOption result ((self.old.held ≡ []) × (self.new.held ≡ []))
            (λ entry. self.old.held ≡ self.new.held ++ (entry.0.items, entry.1) ∷ []) }
        ensures room { self.old.room ≤ self.new.room }
    {
        self.entries.pop()
    }
}
