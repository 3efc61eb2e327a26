//! Runs of plain bytes, which scanning moves at once.
ghost use Rattle.std.specs.Prelude.{◌≡◌, ◌<◌, ◌≤◌, false, get_or, length, ℕ};
ghost use Rattle.trac_forms.specs.Stored.{KnowsAll};
ghost use Rattle.trac_rules.specs.PlainRuns.{BeginsPlain, is_plain, moved_on};
ghost use Rattle.trac_rules.specs.Proper.{IsProper};
ghost use Rattle.trac_step.specs.Room.{HasRoom};

use crate::engine::Core;
use std::alloc::Allocator;
use trac_gap::TwoEnds;
use trac_text::Mark;

impl<E: TwoEnds<u8, A>, M: TwoEnds<Mark, A>, A: Allocator + Copy> Core<E, M, A> {
    /// Moves the plain bytes with which the active text begins, counted up to `most`, to the current text, and returns
    /// how many these are: as many steps of T-64's rules of scanning, each of which would answer the record `Moved`. It
    /// takes no memory, and the machine has room for each state on the way.
    #[inline(always)]
    pub fn move_plain(&mut self, most: usize) -> usize
        ensures moved { self.new ≡ record self.old { state = moved_on result self.old.state } }
        ensures plain { BeginsPlain result self.old.state }
        ensures most { result ≤ most }
        ensures proper { IsProper self.old.state }
        ensures held { (k : ℕ) → k ≤ result → HasRoom self.old (moved_on k self.old.state) }
        ensures recent { KnowsAll self.old.recent self.old.state.forms }
        ensures end { result < most → result < length self.old.state.active →
            is_plain (get_or self.old.state.active result 0) ≡ false }
    {
        self.recall_room();
        self.texts.gather_plain(most)
    }
}
