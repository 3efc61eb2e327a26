//! Lists with two ends in one block, with the gap between them.
ghost use Rattle.std.specs.Prelude.{◌≡◌, ◌+◌, ◌<◌, ◌≤◌, IfOk, OnErr, OnOk};
ghost use Rattle.trac_gap.specs.Ends.{item_count};

use crate::error::GapError;
use crate::slots::{BlockStart, Lease, Slots, allocate, deallocate, no_places};
use crate::two_ends::TwoEnds;
use std::alloc::{AllocError, Allocator, Global};
use std::marker::Model;
use std_alloc::room::may_hold;

/// Both lists lie in one block: the left one at its start, and the right one at its end. The places from `gap_start` up
/// to `gap_end` are the gap. What lies there is of no use, so pushing, popping and cutting move no other item.
///
/// Before room is reserved there is no block: no places, and no lease. `drop` and `copy` alone ask whether there is
/// one; each other call does the same with no places.
pub struct GapBuf<T: Copy, A: Allocator + Copy = Global> {
    start: BlockStart<T>,
    places: Slots<T>,
    alloc: A,
    gap_start: usize,
    capacity: usize,
    gap_end: usize,
    lease: Option<Lease<T, A>>,
}

impl<T: Copy, A: Allocator + Copy> Model for GapBuf<T, A> {
    ghost use Rattle.trac_gap.specs.Ends.{Ends};

    ghost Value = { Ends T };

    ghost use Rattle.trac_gap.specs.GapBuf.{buffer_ends, IsLaidOut};

    ghost view = { buffer_ends };

    ghost invariant = { IsLaidOut };
}

impl<T: Copy, A: Allocator + Copy> Drop for GapBuf<T, A> {
    fn drop(self) {
        let GapBuf {
            start,
            places,
            alloc,
            capacity,
            lease,
            gap_start: _,
            gap_end: _,
        } = self;
        match lease {
            Some(lease) => deallocate(&alloc, start, capacity, places, lease),
            None => drop(places),
        }
    }
}

impl<T: Copy, A: Allocator + Copy> GapBuf<T, A> {
    // A block of `capacity` places with a copy of both lists. Refused if there is no memory.
    #[cold]
    #[inline(never)]
    fn copied(&self, capacity: usize) -> Result<Self, AllocError>
        requires { item_count self.now ≤ capacity }
        ensures { IfOk result (λ b. b ≡ record self.now { capacity = capacity }) }
    {
        if !may_hold::<T>(capacity) {
            return Err(AllocError);
        }
        let (start, places, lease) = allocate(&self.alloc, capacity)?;
        let mut copy = GapBuf {
            start,
            places,
            alloc: self.alloc,
            gap_start: 0,
            capacity,
            gap_end: capacity,
            lease: Some(lease),
        };
        copy.put_left(self.left());
        copy.put_right(self.right());
        Ok(copy)
    }

    // Makes room for `n` more items by a larger block. It is rarely called, and kept out of the way of `reserve`.
    #[cold]
    #[inline(never)]
    fn grow(&mut self, n: usize) -> Result<(), GapError>
        requires { self.old.capacity < item_count self.old + n }
        ensures left { self.new.left ≡ self.old.left }
        ensures right { self.new.right ≡ self.old.right }
        ensures grows { self.old.capacity ≤ self.new.capacity }
        ensures ok { OnOk result (item_count self.new + n ≤ self.new.capacity) }
        ensures err { OnErr result (self.new ≡ self.old) }
    {
        let used = self.capacity - self.room();
        let Some(wanted) = used.checked_add(n) else {
            return Err(GapError::Memory);
        };
        // Twice the places, if that is enough.
        let grown = wanted.max(self.capacity.checked_mul(2).unwrap_or(wanted));
        *self = self.copied(grown)?;
        Ok(())
    }
}

impl<T: Copy, A: Allocator + Copy> TwoEnds<T, A> for GapBuf<T, A> {
    ghost ends = { λ g. g };

    fn new(alloc: A) -> Self {
        let (start, places) = no_places();
        GapBuf {
            start,
            places,
            alloc,
            gap_start: 0,
            capacity: 0,
            gap_end: 0,
            lease: None,
        }
    }

    #[inline]
    fn reserve(&mut self, n: usize) -> Result<(), GapError> {
        if n <= self.room() {
            return Ok(());
        }
        self.grow(n)
    }

    #[inline]
    fn room(&self) -> usize {
        self.gap_end - self.gap_start
    }

    #[inline]
    fn left(&self) -> &[T] {
        self.places.items(self.start, 0, self.gap_start)
    }

    #[inline]
    fn right(&self) -> &[T] {
        self.places
            .items(self.start, self.gap_end, self.capacity - self.gap_end)
    }

    #[inline]
    fn push_left(&mut self, x: T) {
        self.places.put(self.start, self.gap_start, x);
        self.gap_start += 1;
    }

    fn put_left(&mut self, items: &[T]) {
        self.places.copy_in(self.start, self.gap_start, items);
        self.gap_start += items.len();
    }

    #[inline]
    fn push_right(&mut self, x: T) {
        self.gap_end -= 1;
        self.places.put(self.start, self.gap_end, x);
    }

    fn put_right(&mut self, items: &[T]) {
        self.gap_end -= items.len();
        self.places.copy_in(self.start, self.gap_end, items);
    }

    #[inline]
    fn pop_left(&mut self) -> Option<T> {
        if self.gap_start == 0 {
            return None;
        }
        self.gap_start -= 1;
        Some(self.places.item(self.start, self.gap_start))
    }

    #[inline]
    fn pop_right(&mut self) -> Option<T> {
        if self.gap_end == self.capacity {
            return None;
        }
        let first = self.places.item(self.start, self.gap_end);
        self.gap_end += 1;
        Some(first)
    }

    #[inline]
    fn cut_left(&mut self, n: usize) {
        self.gap_start -= n;
    }

    #[inline]
    fn cut_right(&mut self, n: usize) {
        self.gap_end += n;
    }

    #[inline(always)]
    fn shift_left(&mut self, n: usize) {
        self.places
            .shift(self.start, self.gap_end, self.gap_start, n);
        self.gap_start += n;
        self.gap_end += n;
    }

    #[inline]
    fn shift_right(&mut self, n: usize) {
        self.gap_start -= n;
        self.gap_end -= n;
        self.places
            .shift(self.start, self.gap_start, self.gap_end, n);
    }

    fn copy(&self) -> Result<Self, GapError> {
        // For no places nothing is requested.
        if self.capacity == 0 {
            return Ok(GapBuf::new(self.alloc));
        }
        Ok(self.copied(self.capacity)?)
    }
}
