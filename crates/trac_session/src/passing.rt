//! Runs of plain bytes, which a session passes at once.
ghost use Rattle.std.specs.Prelude.{◌≡◌, ◌<◌, ◌≤◌, Some};
ghost use Rattle.trac_rules.specs.Session.{Step, Back, repeated};
ghost use Rattle.trac_rules.specs.Weights.{weights_from};
ghost use Rattle.trac_session.specs.Runs.{HasMovedBack, HasNoPlain, HasNotMovedLast};

use crate::session::{Session, forget_names};
use std::alloc::Allocator;

impl<A: Allocator + Copy> Session<A> {
    /// Goes forward over plain bytes at the front of the active text: up to `most`, and as many as the journal has room
    /// for. Returns how many these are: as many steps. It takes no memory.
    #[inline(always)]
    pub(crate) fn pass_plain(&mut self, most: u64) -> u64
        ensures passed { repeated Step result self.old ≡ Some self.new }
        ensures moved { HasMovedBack result self.new self.old }
        ensures most { result ≤ most }
        ensures weight { weights_from self.new.earlier ≡ weights_from self.old.earlier }
        ensures end { result < most → HasNoPlain self.new }
    {
        let room = self.limit - self.journal.len();
        let count = self.machine.move_plain(most.min(room as u64) as usize);
        self.journal.push_moved(count);
        count as u64
    }

    /// Goes back over steps that moved a byte each to the current text, up to `most` of them, until one that did
    /// something else. Returns how many these are: fewer than `most` only if the step before did something else, or
    /// there is none. It takes the same time however many they are, but for moving the bytes, and no memory.
    pub fn pass_back(&mut self, most: u64) -> u64
        ensures passed { repeated Back result self.old ≡ Some self.new }
        ensures moved { HasMovedBack result self.old self.new }
        ensures most { result ≤ most }
        ensures end { result < most → HasNotMovedLast self.new.earlier }
    {
        let records = self.journal.len();
        let most = most.min(records as u64) as usize;
        let count = self.mark.pop_moved(&mut self.journal, most);
        self.machine.move_back(count);
        forget_names(&mut self.machine, &self.journal);
        count as u64
    }
}
