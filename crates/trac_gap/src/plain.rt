//! Lists with two ends over two vectors: the plain program that tests compare with.
ghost use Rattle.std.specs.Prelude.{◌≡◌, ◌+◌, ◌-◌, ◌<◌, ◌≤◌, ◌++◌, length, vec_len, vec_capacity};
ghost use Rattle.trac_gap.specs.Ends.{Ends};

use crate::error::GapError;
use crate::sliding::cut_front;
use crate::two_ends::TwoEnds;
use std::alloc::{Allocator, Global};
use std::marker::Model;

/// Two vectors, each with places for all the items of both.
#[derive(Drop)]
pub struct PlainEnds<T: Copy, A: Allocator + Copy = Global> {
    left: Vec<T, A>,
    right: Vec<T, A>,
    capacity: usize,
}

impl<T: Copy, A: Allocator + Copy> Model for PlainEnds<T, A> {
    ghost Value = { Ends T };

    ghost view = { λ p. record { left = p.left.items; right = p.right.items; capacity = p.capacity } };

    ghost invariant = { λ p. (vec_len p.left + vec_len p.right ≤ p.capacity)
        × (p.capacity ≤ vec_capacity p.left) × (p.capacity ≤ vec_capacity p.right) };
}

impl<T: Copy, A: Allocator + Copy> TwoEnds<T, A> for PlainEnds<T, A> {
    ghost ends = { λ p. p };

    fn new(alloc: A) -> Self {
        PlainEnds {
            left: Vec::new(alloc),
            right: Vec::new(alloc),
            capacity: 0,
        }
    }

    fn reserve(&mut self, n: usize) -> Result<(), GapError> {
        let used = self.left.len() + self.right.len();
        if n <= self.capacity - used {
            return Ok(());
        }
        let Some(wanted) = used.checked_add(n) else {
            return Err(GapError::Memory);
        };
        self.left.reserve(wanted - self.left.len())?;
        self.right.reserve(wanted - self.right.len())?;
        self.capacity = wanted;
        Ok(())
    }

    fn room(&self) -> usize {
        self.capacity - (self.left.len() + self.right.len())
    }

    fn left(&self) -> &[T] {
        self.left.as_slice()
    }

    fn right(&self) -> &[T] {
        self.right.as_slice()
    }

    fn push_left(&mut self, x: T) {
        self.left.push_reserved(x);
    }

    fn put_left(&mut self, items: &[T]) {
        append(&mut self.left, items);
    }

    fn push_right(&mut self, x: T) {
        self.right.push_reserved(x);
        self.right.rotate_right(1);
    }

    fn put_right(&mut self, items: &[T]) {
        append(&mut self.right, items);
        self.right.rotate_right(items.len());
    }

    fn pop_left(&mut self) -> Option<T> {
        self.left.pop()
    }

    fn pop_right(&mut self) -> Option<T> {
        if self.right.is_empty() {
            return None;
        }
        Some(self.right.remove(0))
    }

    fn cut_left(&mut self, n: usize) {
        self.left.truncate(self.left.len() - n);
    }

    fn cut_right(&mut self, n: usize) {
        cut_front(&mut self.right, n);
    }

    fn shift_left(&mut self, n: usize) {
        append(&mut self.left, &self.right[..n]);
        cut_front(&mut self.right, n);
    }

    fn shift_right(&mut self, n: usize) {
        let kept = self.left.len() - n;
        append(&mut self.right, &self.left[kept..]);
        self.right.rotate_right(n);
        self.left.truncate(kept);
    }

    fn copy(&self) -> Result<Self, GapError> {
        let alloc = *self.left.allocator();
        let mut left = Vec::with_capacity(alloc, self.capacity)?;
        append(&mut left, self.left.as_slice());
        let mut right = Vec::with_capacity(alloc, self.capacity)?;
        append(&mut right, self.right.as_slice());
        Ok(PlainEnds {
            left,
            right,
            capacity: self.capacity,
        })
    }
}

// Puts `items` at the end of `list`, which has places for them.
fn append<T: Copy, A: Allocator + Copy>(list: &mut Vec<T, A>, items: &[T])
    requires { vec_len list.old + length items.now ≤ vec_capacity list.old }
    ensures items { list.new.items ≡ list.old.items ++ items.now }
    ensures capacity { vec_capacity list.old ≤ vec_capacity list.new }
{
    let Ok(()) = list.extend_from_slice(items) else {
        unreachable!()
    };
}
