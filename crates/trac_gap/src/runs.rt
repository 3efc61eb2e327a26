//! Copies of runs of items into a row of places, and within it.
ghost use Rattle.std.specs.Prelude.{◌≡◌, ℕ, ◌+◌, ◌-◌, ◌^◌, ◌<◌, ◌≤◌, Some, None, length, take, drop, map, get_or};
ghost use Rattle.std.specs.Prelude.{IsSome};
ghost use Rattle.trac_gap.specs.Slots.{IsFull, IsShifted, run, pasted};

use crate::slots::{BlockStart, Slots};

// How many items a run that overlaps its target moves by at a time: first, and then.
const LONG: usize = 2048;

const SHORT: usize = 32;

impl<T: Copy> Slots<T> {
    /// The item in the place `index`, which has one.
    #[inline]
    pub(crate) fn item(&self, start: BlockStart<T>, index: usize) -> T
        requires { (start.ptr ≡ self.now.at) × (index < length self.now.slots)
            × IsSome (get_or self.now.slots index None) }
        ensures { get_or self.now.slots index None ≡ Some result }
    {
        self.items(start, index, 1)[0]
    }

    /// Copies `items` to the places from `at` on.
    pub(crate) fn copy_in(&mut self, start: BlockStart<T>, at: usize, items: &[T])
        requires { (start.ptr ≡ self.old.at) × (at + length items.now ≤ length self.old.slots)
            × (length self.old.slots < 2 ^ 64) }
        ensures { (self.new.at ≡ self.old.at)
            × (self.new.slots ≡ pasted self.old.slots at (map Some items.now)) }
    {
        for i in 0..items.len() {
            self.put(start, at + i, items[i]);
        }
    }

    /// Moves the `count` items from the place `from` on to the places from `to` on, which may
    /// overlap them. What the other places of both runs hold afterwards is of no use.
    #[inline(always)]
    pub(crate) fn shift(&mut self, start: BlockStart<T>, from: usize, to: usize, count: usize)
        requires { (start.ptr ≡ self.old.at) × (from + count ≤ length self.old.slots)
            × (to + count ≤ length self.old.slots) × (length self.old.slots < 2 ^ 64)
            × IsFull (run from count self.old.slots) }
        ensures { (self.new.at ≡ self.old.at)
            × IsShifted self.old.slots from to count self.new.slots }
    {
        // A run is often empty, and then nothing has to be called.
        if count == 0 {
            return;
        }
        // With no gap each item has arrived already.
        if from == to {
            return;
        }
        if count <= from.abs_diff(to) {
            // One or two items need no call: most runs that scanning moves are so short.
            match count {
                1 => self.move_apart(start, from, to, 1),
                2 => self.move_apart(start, from, to, 2),
                _ => self.move_apart(start, from, to, count),
            }
        } else if to <= from {
            self.shift_down(start, from, to, count);
        } else {
            self.shift_up(start, from, to, count);
        }
    }

    // `shift` to lower places, the first items first. Its parts lie on the stack, so it is no part
    // of the frame of `shift`.
    #[inline(never)]
    fn shift_down(&mut self, start: BlockStart<T>, from: usize, to: usize, count: usize)
        requires { (start.ptr ≡ self.old.at) × (from + count ≤ length self.old.slots)
            × (to ≤ from) × (length self.old.slots < 2 ^ 64)
            × IsFull (run from count self.old.slots) }
        ensures { (self.new.at ≡ self.old.at)
            × (self.new.slots ≡ pasted self.old.slots to (run from count self.old.slots)) }
    {
        let long = self.parts_down::<LONG>(start, from, to, count);
        let more = self.parts_down::<SHORT>(start, from + long, to + long, count - long);
        let done = long + more;
        self.parts_down::<1>(start, from + done, to + done, count - done);
    }

    // `shift` to higher places, the last items first.
    #[inline(never)]
    fn shift_up(&mut self, start: BlockStart<T>, from: usize, to: usize, count: usize)
        requires { (start.ptr ≡ self.old.at) × (to + count ≤ length self.old.slots)
            × (from ≤ to) × (length self.old.slots < 2 ^ 64)
            × IsFull (run from count self.old.slots) }
        ensures { (self.new.at ≡ self.old.at)
            × (self.new.slots ≡ pasted self.old.slots to (run from count self.old.slots)) }
    {
        let left = self.parts_up::<LONG>(start, from, to, count);
        let few = self.parts_up::<SHORT>(start, from, to, left);
        self.parts_up::<1>(start, from, to, few);
    }

    // Copies the first items of the run to lower places, `N` at a time while so many are left.
    // Returns how many it copied.
    fn parts_down<const N: usize>(
        &mut self,
        start: BlockStart<T>,
        from: usize,
        to: usize,
        count: usize,
    ) -> usize
        requires { (start.ptr ≡ self.old.at) × (from + count ≤ length self.old.slots)
            × (to ≤ from) × (length self.old.slots < 2 ^ 64)
            × IsFull (run from count self.old.slots) × (0 < N) }
        ensures copied { (self.new.at ≡ self.old.at) × (self.new.slots
            ≡ pasted self.old.slots to (take result (run from count self.old.slots))) }
        ensures most { (result ≤ count) × (count < result + N) }
    {
        let mut done = 0;
        while N <= count - done {
            self.shift_part::<N>(start, from + done, to + done);
            done += N;
        }
        done
    }

    // Copies the last items of the run to higher places, `N` at a time while so many are left.
    // Returns how many are left.
    fn parts_up<const N: usize>(
        &mut self,
        start: BlockStart<T>,
        from: usize,
        to: usize,
        count: usize,
    ) -> usize
        requires { (start.ptr ≡ self.old.at) × (to + count ≤ length self.old.slots)
            × (from ≤ to) × (length self.old.slots < 2 ^ 64)
            × IsFull (run from count self.old.slots) × (0 < N) }
        ensures copied { (self.new.at ≡ self.old.at) × (self.new.slots
            ≡ pasted self.old.slots (to + result) (drop result (run from count self.old.slots))) }
        ensures most { (result ≤ count) × (result < N) }
    {
        let mut left = count;
        while N <= left {
            left -= N;
            self.shift_part::<N>(start, from + left, to + left);
        }
        left
    }

    // `shift` of `N` items. All are read before one is written, so this is one copy of memory also if the places
    // overlap.
    #[inline]
    fn shift_part<const N: usize>(&mut self, start: BlockStart<T>, from: usize, to: usize)
        requires { (start.ptr ≡ self.old.at) × (from + N ≤ length self.old.slots)
            × (to + N ≤ length self.old.slots) × (length self.old.slots < 2 ^ 64)
            × IsFull (run from N self.old.slots) }
        ensures { (self.new.at ≡ self.old.at)
            × (self.new.slots ≡ pasted self.old.slots to (run from N self.old.slots)) }
    {
        let Some(part) = self.items(start, from, N).as_array::<N>() else {
            unreachable!()
        };
        let part = *part;
        self.copy_in(start, to, &part);
    }
}
