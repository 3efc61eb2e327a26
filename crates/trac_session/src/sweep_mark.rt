//! Which steps of a session may need names that are aged.
ghost use Rattle.std.specs.Prelude.{◌≡◌, ◌-◌, ◌<◌, ◌≤◌, ◌^◌, ◌++◌, [], IsTrue, drop, false, length, min, replicate};
ghost use Rattle.std.specs.Prelude.{take};
ghost use Rattle.trac_journal.specs.Told.{IsMovedFirst, printed_by, read_by, sum_by};
ghost use Rattle.trac_rules.specs.Records.{Moved};
ghost use Rattle.trac_rules.specs.Session.{released};
ghost use Rattle.trac_step.specs.Kept.{CanGoBack, HasGoneBack};
ghost use Rattle.trac_step.specs.Room.{IsNoLess};
ghost use Rattle.trac_session.specs.Knowing.{HasSwept};

use std::alloc::Allocator;
use std::marker::Model;
use trac_gap::TwoEnds;
use trac_journal::{Journal, Passed};
use trac_step::{Core, Mark};

/// How many of the oldest steps of a journal are from before the last sweep of aged names: these alone may need names
/// that are aged now. It changes only together with the journal, by the calls here. So no code counts more steps as
/// old, for which names would stay known that no step needs. That a session cuts its journal by these calls alone, a
/// test says that counts bytes, and no contract.
#[derive(Drop)]
pub(crate) struct SweepMark {
    steps: usize,
}

impl Model for SweepMark {
    ghost use Rattle.std.specs.Prelude.{ℕ};

    ghost Value = { ℕ };

    ghost view = { λ m. m.steps };
}

impl SweepMark {
    /// No step is.
    pub(crate) fn none() -> Self
        ensures { result ≡ 0 }
    {
        SweepMark { steps: 0 }
    }

    /// Goes back over the last step, as the machine does. Of the steps that are left no more are old than were before.
    #[inline(always)]
    pub(crate) fn step_back<E: TwoEnds<u8, A>, M: TwoEnds<Mark, A>, A: Allocator + Copy>(
        &mut self,
        machine: &mut Core<E, M, A>,
        journal: &mut Journal<A>,
    ) -> bool
        requires back { CanGoBack machine.old journal.old.records }
        requires within { self.old ≤ length journal.old.records }
        ensures back { IsTrue result →
            HasGoneBack machine.old.state machine.new.state journal.old.records journal.new.records }
        ensures none { result ≡ false →
            (journal.old.records ≡ []) × ((journal.new.records ≡ []) × (machine.new ≡ machine.old)) }
        ensures room { IsNoLess machine.old machine.new }
        ensures trimmed { self.new ≡ min self.old (length journal.new.records) }
    {
        let went = machine.step_back(journal);
        self.trim(journal);
        went
    }

    /// Takes out the records of the bytes that were moved last, as the journal does. Of the steps that are left no more
    /// are old than were before.
    pub(crate) fn pop_moved<A: Allocator + Copy>(
        &mut self,
        journal: &mut Journal<A>,
        most: usize,
    ) -> usize
        requires { self.old ≤ length journal.old.records }
        ensures taken { journal.old.records ≡ replicate result Moved ++ journal.new.records }
        ensures most { result ≤ most }
        ensures end { result < most → IsMovedFirst journal.new.records → ⊥ }
        ensures trimmed { self.new ≡ min self.old (length journal.new.records) }
    {
        let count = journal.pop_moved(most);
        self.trim(journal);
        count
    }

    // No more steps are old than there are.
    fn trim<A: Allocator + Copy>(&mut self, journal: &Journal<A>)
        ensures { self.new ≡ min self.old (length journal.now.records) }
    {
        self.steps = self.steps.min(journal.len());
    }

    /// Keeps so many of the newest records. It releases what the steps of the others read and printed, and returns how
    /// much that is. Then it sweeps aged names if none of the steps that are left is from before the last sweep. For
    /// such a step alone may need a name that is aged now.
    pub(crate) fn keep_newest<E: TwoEnds<u8, A>, M: TwoEnds<Mark, A>, A: Allocator + Copy>(
        &mut self,
        machine: &mut Core<E, M, A>,
        journal: &mut Journal<A>,
        keep: usize,
    ) -> Passed
        requires read_fits { sum_by read_by (drop keep journal.old.records) < 2 ^ 64 }
        requires printed_fits { sum_by printed_by (drop keep journal.old.records) < 2 ^ 64 }
        requires read { sum_by read_by (drop keep journal.old.records) ≤ machine.old.state.position }
        requires printed { sum_by printed_by (drop keep journal.old.records) ≤ length machine.old.state.output }
        ensures kept { journal.new.records ≡ take keep journal.old.records }
        ensures read { result.read ≡ sum_by read_by (drop keep journal.old.records) }
        ensures printed { result.printed ≡ sum_by printed_by (drop keep journal.old.records) }
        ensures swept { self.old ≤ length journal.old.records - length journal.new.records →
            HasSwept (length journal.new.records) self.new
            (record machine.old { state = released result.printed result.read machine.old.state }) machine.new }
        ensures waits { length journal.old.records - length journal.new.records < self.old →
            (machine.new ≡ record machine.old { state = released result.printed result.read machine.old.state })
            × (self.new ≡ self.old - (length journal.old.records - length journal.new.records)) }
    {
        let before = journal.len();
        let passed = journal.keep_newest(keep);
        machine.release(passed.printed, passed.read);
        let kept = journal.len();
        self.age(machine, kept, before - kept);
        passed
    }

    // Sweeps aged names if no fewer steps were dropped than there were old ones; so many are left.
    fn age<E: TwoEnds<u8, A>, M: TwoEnds<Mark, A>, A: Allocator + Copy>(
        &mut self,
        machine: &mut Core<E, M, A>,
        kept: usize,
        dropped: usize,
    )
        ensures swept { self.old ≤ dropped → HasSwept kept self.new machine.old machine.new }
        ensures waits { dropped < self.old → (machine.new ≡ machine.old) × (self.new ≡ self.old - dropped) }
    {
        if self.steps <= dropped {
            machine.sweep_aged();
            self.steps = kept;
        } else {
            self.steps -= dropped;
        }
    }
}
