//! Journals of which the oldest records are dropped.
ghost use Rattle.std.specs.Prelude.{◌≡◌, ◌+◌, ◌-◌, ◌<◌, ◌≤◌, ◌^◌, drop, length, reverse, take};
ghost use Rattle.trac_journal.specs.Dropped.{printed_first};
ghost use Rattle.trac_journal.specs.Told.{printed_by, read_by, sum_by};

use crate::entry::{Entry, Kept};
use crate::journal::Journal;
use crate::lists::Lists;
use std::alloc::Allocator;
use std::collections::VecDeque;

/// How many bytes of the tape the steps of some records read, and how many they printed.
#[derive(Clone, Copy)]
pub struct Passed {
    pub read: usize,
    pub printed: usize,
}

// What steps do that read nothing and print nothing.
const NONE_PASSED: Passed = Passed {
    read: 0,
    printed: 0,
};

impl<A: Allocator + Copy> Journal<A> {
    /// Keeps so many of the newest records, or all if there are fewer, and drops the others. Returns how many bytes of
    /// the tape the steps of those read, and how many they printed: each sum has to fit a `usize`. It takes time for
    /// what it drops, averaged over all calls, and none for what it keeps.
    pub fn keep_newest(&mut self, n: usize) -> Passed
        requires read_fits { sum_by read_by (drop n self.old.records) < 2 ^ 64 }
        requires printed_fits { sum_by printed_by (drop n self.old.records) < 2 ^ 64 }
        ensures kept { self.new.records ≡ take n self.old.records }
        ensures read { result.read ≡ sum_by read_by (drop n self.old.records) }
        ensures printed { result.printed ≡ sum_by printed_by (drop n self.old.records) }
    {
        let mut passed = NONE_PASSED;
        while self.len() > n {
            let more = self.drop_some(self.len() - n);
            passed.read += more.read;
            passed.printed += more.printed;
        }
        passed
    }

    /// How many bytes the steps printed whose records `keep_newest` would drop: the sum has to fit a `usize`. It takes
    /// time for these records, but for those of moved bytes.
    pub fn printed_before(&self, n: usize) -> usize
        requires { sum_by printed_by (drop n self.now.records) < 2 ^ 64 }
        ensures { result ≡ sum_by printed_by (drop n self.now.records) }
    {
        printed_by_first(&self.entries, &self.lists, self.len.saturating_sub(n))
    }

    // Drops some of the oldest records, `most` at most: those of bytes that were moved one after another, or these
    // and that of the entry after them.
    fn drop_some(&mut self, most: usize) -> Passed
        requires some { 0 < most }
        requires there { most ≤ length self.old.records }
        ensures kept { self.new.records ≡ take (length self.new.records) self.old.records }
        ensures some { length self.new.records < length self.old.records }
        ensures most { length self.old.records ≤ length self.new.records + most }
        ensures read { result.read ≡ sum_by read_by (drop (length self.new.records) self.old.records) }
        ensures printed { result.printed ≡ sum_by printed_by (drop (length self.new.records) self.old.records) }
    {
        let Some(entry) = self.entries.pop_front() else {
            self.moved -= most;
            self.len -= most;
            return NONE_PASSED;
        };
        let moved = entry.moved as usize;
        if most <= moved {
            self.entries.push_front_reserved(Entry {
                moved: (moved - most) as u32,
                kept: entry.kept,
            });
            self.len -= most;
            return NONE_PASSED;
        }
        let gone = self.lists.drop_oldest(entry.kept);
        self.len -= moved + 1;
        self.weight -= gone.weight;
        Passed {
            read: gone.read,
            printed: gone.printed,
        }
    }
}

// How many bytes the steps of so many of the records of these entries printed, the oldest first.
fn printed_by_first<A: Allocator + Copy>(
    entries: &VecDeque<Entry, A>,
    lists: &Lists<A>,
    count: usize,
) -> usize
    requires { printed_first count entries.now.items (reverse lists.now.listed.calls) < 2 ^ 64 }
    ensures { result ≡ printed_first count entries.now.items (reverse lists.now.listed.calls) }
{
    let mut printed = 0;
    let mut left = count;
    let mut at = 0;
    for i in 0..entries.len() {
        let entry = entries[i];
        let moved = entry.moved as usize;
        if left <= moved {
            return printed;
        }
        left -= moved + 1;
        // Such an entry's step performed a call, which stands at place `at` of the calls, the oldest at 0.
        if let Kept::Call | Kept::Pointed(_) | Kept::Changed = entry.kept {
            printed += lists.printed_at(at);
            at += 1;
        }
    }
    printed
}
