//! What lists with two ends promise, whatever holds them.
ghost use Rattle.std.specs.Prelude.{◌≡◌, ◌+◌, ◌-◌, ◌^◌, ◌<◌, ◌≤◌, [], ◌∷◌, ◌++◌, length, take, drop, IsOk, OnOk, OnErr};
ghost use Rattle.std.specs.Prelude.{IfOk, MatchOption};
ghost use Rattle.trac_gap.specs.Ends.{Ends, item_count};

use crate::error::GapError;
use std::alloc::Allocator;

/// A list on the left that grows at its end, and a list on the right that grows at its front.
/// They share `capacity` places, so that an item passes from one to the other without memory.
/// Lengths, places and the capacity count items.
///
/// Only `reserve` and `copy` can be refused. All other calls take no memory, and keep the capacity.
pub trait TwoEnds<T: Copy, A: Allocator + Copy>: Sized + Drop {
    ghost ends: { Self → Ends T };

    /// Both lists are empty and the capacity is 0. Takes no memory; `alloc` is kept for later.
    fn new(alloc: A) -> Self
        ensures { ends result ≡ record { left = []; right = []; capacity = 0 } };

    /// Makes room for `n` more items, on either side.
    /// Refused with `Memory` if the allocator refuses, and then nothing has changed.
    fn reserve(&mut self, n: usize) -> Result<(), GapError>
        ensures left { (ends self.new).left ≡ (ends self.old).left }
        ensures right { (ends self.new).right ≡ (ends self.old).right }
        ensures grows { (ends self.old).capacity ≤ (ends self.new).capacity }
        ensures ok { OnOk result (item_count (ends self.new) + n ≤ (ends self.new).capacity) }
        ensures err { OnErr result (ends self.new ≡ ends self.old) }

        // If the room is there already, nothing is asked of the allocator.
        ensures succeeds { item_count (ends self.old) + n ≤ (ends self.old).capacity → IsOk result }
        ensures same { item_count (ends self.old) + n ≤ (ends self.old).capacity
            → ends self.new ≡ ends self.old };

    /// How many more items there are places for.
    fn room(&self) -> usize
        ensures room { result ≡ (ends self.now).capacity - item_count (ends self.now) }
        ensures within { item_count (ends self.now) ≤ (ends self.now).capacity }
        ensures fits { (ends self.now).capacity < 2 ^ 64 };

    /// The list on the left.
    fn left(&self) -> &[T]
        ensures left { result.now ≡ (ends self.now).left }
        ensures within { item_count (ends self.now) ≤ (ends self.now).capacity };

    /// The list on the right.
    fn right(&self) -> &[T]
        ensures right { result.now ≡ (ends self.now).right }
        ensures within { item_count (ends self.now) ≤ (ends self.now).capacity };

    /// Puts `x` at the end of the left list. There has to be room for it.
    fn push_left(&mut self, x: T)
        requires { item_count (ends self.old) < (ends self.old).capacity }
        ensures { ends self.new ≡ record (ends self.old) { left = (ends self.old).left ++ x ∷ [] } };

    /// Puts `items`, in order, at the end of the left list. There has to be room for them.
    fn put_left(&mut self, items: &[T])
        requires { item_count (ends self.old) + length items.now ≤ (ends self.old).capacity }
        ensures { ends self.new ≡ record (ends self.old) { left = (ends self.old).left ++ items.now } };

    /// Puts `x` before the first item of the right list. There has to be room for it.
    fn push_right(&mut self, x: T)
        requires { item_count (ends self.old) < (ends self.old).capacity }
        ensures { ends self.new ≡ record (ends self.old) { right = x ∷ (ends self.old).right } };

    /// Puts `items`, in order, before the first item of the right list. There has to be room for them.
    fn put_right(&mut self, items: &[T])
        requires { item_count (ends self.old) + length items.now ≤ (ends self.old).capacity }
        ensures { ends self.new ≡ record (ends self.old) { right = items.now ++ (ends self.old).right } };

    /// Takes the last item of the left list; `None` if that list is empty.
    fn pop_left(&mut self) -> Option<T>
        ensures { MatchOption result
            ((ends self.old).left ≡ [] × ends self.new ≡ ends self.old)
            (λ x.
            ends self.old ≡ record (ends self.new) { left = (ends self.new).left ++ x ∷ [] }) };

    /// Takes the first item of the right list; `None` if that list is empty.
    fn pop_right(&mut self) -> Option<T>
        ensures { MatchOption result
            ((ends self.old).right ≡ [] × ends self.new ≡ ends self.old)
            (λ x.
            ends self.old ≡ record (ends self.new) { right = x ∷ (ends self.new).right }) };

    /// Drops the last `n` items of the left list, which have to be there.
    fn cut_left(&mut self, n: usize)
        requires { n ≤ length (ends self.old).left }
        ensures { ends self.new ≡ record (ends self.old) {
          left = take (length (ends self.old).left - n) (ends self.old).left;
        } };

    /// Drops the first `n` items of the right list, which have to be there.
    fn cut_right(&mut self, n: usize)
        requires { n ≤ length (ends self.old).right }
        ensures { ends self.new ≡ record (ends self.old) { right = drop n (ends self.old).right } };

    /// Moves the first `n` items of the right list, which have to be there, in order to the end of the left list.
    fn shift_left(&mut self, n: usize)
        requires { n ≤ length (ends self.old).right }
        ensures { ends self.new ≡ record (ends self.old) {
          left = (ends self.old).left ++ take n (ends self.old).right;
          right = drop n (ends self.old).right;
        } };

    /// Moves the last `n` items of the left list, which have to be there, in order before the first of the right list.
    fn shift_right(&mut self, n: usize)
        requires { n ≤ length (ends self.old).left }
        ensures { let kept = length (ends self.old).left - n in
            ends self.new ≡ record (ends self.old) {
              left = take kept (ends self.old).left;
              right = drop kept (ends self.old).left ++ (ends self.old).right;
            } };

    /// A second pair of the same lists, with memory of its own and at least the same capacity. Refused with `Memory` if
    /// the allocator refuses.
    fn copy(&self) -> Result<Self, GapError>
        ensures left { IfOk result (λ c. (ends c).left ≡ (ends self.now).left) }
        ensures right { IfOk result (λ c. (ends c).right ≡ (ends self.now).right) }
        ensures grows { IfOk result (λ c. (ends self.now).capacity ≤ (ends c).capacity) }

        // If there is no place to copy, nothing is asked of the allocator.
        ensures succeeds { (ends self.now).capacity ≡ 0 → IsOk result };
}
