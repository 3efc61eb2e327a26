//! A list that grows at its end and loses items at both ends.
ghost use Rattle.std.specs.Prelude.{◌≡◌, ◌==◌, ◌+◌, ◌≤◌, [], ◌∷◌, ◌++◌, length, take, drop, vec_len, vec_capacity};
ghost use Rattle.std.specs.Prelude.{IsOk, OnOk, OnErr, IfOk};
ghost use Rattle.trac_gap.specs.Window.{Window};

use std::alloc::{AllocError, Allocator, Global};
use std::marker::Model;

/// A list that grows at its end and loses items at both ends. What is dropped at its front stays in the block until as
/// many items are gone as are left. Only then do those that are left move. So if each growth is reserved before, a call
/// takes time for what it puts and drops alone, averaged over all calls.
///
/// Lengths and the capacity count items. Only `with_capacity`, `reserve` and `extend_from_slice` can be refused. All
/// other calls take no memory, and no call lessens the capacity.
#[derive(Drop)]
pub struct SlidingBuf<T: Copy, A: Allocator = Global> {
    list: Vec<T, A>,
    // how many items at the front of the list are dropped
    gone: usize,
}

impl<T: Copy, A: Allocator> Model for SlidingBuf<T, A> {
    ghost Value = { Window T };

    ghost view = { λ b. record { items = drop b.gone b.list.items; capacity = vec_capacity b.list } };

    ghost invariant = { λ b. b.gone ≤ vec_len b.list };
}

impl<T: Copy, A: Allocator> SlidingBuf<T, A> {
    /// There are no items, and the capacity is 0. Takes no memory; `alloc` is kept for later.
    pub fn new(alloc: A) -> Self
        ensures { result ≡ record { items = []; capacity = 0 } }
    {
        SlidingBuf {
            list: Vec::new(alloc),
            gone: 0,
        }
    }

    /// There are no items, and the capacity is as said.
    /// Refused if the allocator refuses.
    pub fn with_capacity(alloc: A, capacity: usize) -> Result<Self, AllocError>
        ensures made { IfOk result (λ b. b ≡ record { items = []; capacity = capacity }) }

        // For no place nothing is asked of the allocator.
        ensures succeeds { capacity ≡ 0 → IsOk result }
    {
        let list = Vec::with_capacity(alloc, capacity)?;
        Ok(SlidingBuf { list, gone: 0 })
    }

    /// How many items are left.
    pub fn len(&self) -> usize
        ensures len { result ≡ length self.now.items }
        ensures within { length self.now.items ≤ self.now.capacity }
    {
        self.list.len() - self.gone
    }

    /// Whether no item is left.
    pub fn is_empty(&self) -> bool
        ensures { result ≡ (length self.now.items == 0) }
    {
        self.len() == 0
    }

    /// How many items there are places for.
    pub fn capacity(&self) -> usize
        ensures capacity { result ≡ self.now.capacity }
        ensures within { length self.now.items ≤ self.now.capacity }
    {
        self.list.capacity()
    }

    /// The items that are left.
    pub fn as_slice(&self) -> &[T]
        ensures items { result.now ≡ self.now.items }
        ensures within { length self.now.items ≤ self.now.capacity }
    {
        self.list.split_at(self.gone).1
    }

    /// The allocator that `new` or `with_capacity` was given.
    pub fn allocator(&self) -> &A {
        self.list.allocator()
    }

    /// Makes room for `n` more items.
    /// Refused if the allocator refuses, and then nothing has changed. If there is room already, it is not refused:
    /// what the allocator has not given, the places of dropped items have.
    pub fn reserve(&mut self, n: usize) -> Result<(), AllocError>
        ensures items { self.new.items ≡ self.old.items }
        ensures grows { self.old.capacity ≤ self.new.capacity }
        ensures ok { OnOk result (length self.new.items + n ≤ self.new.capacity) }
        ensures err { OnErr result (self.new ≡ self.old) }
        ensures succeeds { length self.old.items + n ≤ self.old.capacity → IsOk result }
    {
        if n <= self.list.capacity() - self.list.len() {
            return Ok(());
        }
        // If no fewer are gone than are left, moving the others is paid by what went; else the block has to grow.
        if self.len() <= self.gone {
            cut_front(&mut self.list, self.gone);
            self.gone = 0;
        }
        let grown = self.list.reserve(n);
        if grown.is_err() && n > self.list.capacity() - self.len() {
            return Err(AllocError);
        }
        Ok(())
    }

    /// Puts `items`, in order, at the end. There has to be room for them. Those that are left move only if room was not
    /// reserved, or the allocator refused it.
    pub fn put(&mut self, items: &[T])
        requires { length self.old.items + length items.now ≤ self.old.capacity }
        ensures items { self.new.items ≡ self.old.items ++ items.now }
        ensures grows { self.old.capacity ≤ self.new.capacity }
    {
        if items.len() > self.list.capacity() - self.list.len() {
            cut_front(&mut self.list, self.gone);
            self.gone = 0;
        }
        let Ok(()) = self.list.extend_from_slice(items) else {
            unreachable!()
        };
    }

    /// Puts one item at the end, as `put` does. There has to be room for it.
    pub fn push(&mut self, item: T)
        requires { length self.old.items + 1 ≤ self.old.capacity }
        ensures items { self.new.items ≡ self.old.items ++ item ∷ [] }
        ensures grows { self.old.capacity ≤ self.new.capacity }
    {
        if self.list.len() == self.list.capacity() {
            cut_front(&mut self.list, self.gone);
            self.gone = 0;
        }
        self.list.push_reserved(item);
    }

    /// Puts `items`, in order, at the end, with more memory if there is no room for them. Refused as `reserve` is, and
    /// then nothing has changed.
    pub fn extend_from_slice(&mut self, items: &[T]) -> Result<(), AllocError>
        ensures ok { OnOk result (self.new.items ≡ self.old.items ++ items.now) }
        ensures grows { self.old.capacity ≤ self.new.capacity }
        ensures err { OnErr result (self.new ≡ self.old) }
        ensures succeeds { length self.old.items + length items.now ≤ self.old.capacity → IsOk result }
    {
        self.reserve(items.len())?;
        self.put(items);
        Ok(())
    }

    /// Keeps the first `n` items, or all if there are fewer.
    pub fn truncate(&mut self, n: usize)
        ensures { self.new ≡ record self.old { items = take n self.old.items } }
    {
        if n < self.len() {
            self.list.truncate(self.gone + n);
        }
    }

    /// Drops the first `n` items, which have to be there. No item moves.
    pub fn drop_front(&mut self, n: usize)
        requires { n ≤ length self.old.items }
        ensures { self.new ≡ record self.old { items = drop n self.old.items } }
    {
        self.gone += n;
        // If all are gone, the block is used from its start again.
        if self.gone == self.list.len() {
            self.clear();
        }
    }

    /// Drops all items.
    pub fn clear(&mut self)
        ensures { self.new ≡ record self.old { items = [] } }
    {
        self.list.clear();
        self.gone = 0;
    }
}

// Drops the first `n` items of `list`, and moves the others to the front of its block.
pub(crate) fn cut_front<T: Copy, A: Allocator>(list: &mut Vec<T, A>, n: usize)
    requires { n ≤ vec_len list.old }
    ensures items { list.new.items ≡ drop n list.old.items }
    ensures capacity { vec_capacity list.new ≡ vec_capacity list.old }
{
    let left = list.len() - n;
    list.copy_within(n.., 0);
    list.truncate(left);
}
