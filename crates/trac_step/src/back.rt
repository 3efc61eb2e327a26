//! The way back over the newest record of a journal.
ghost use Rattle.std.specs.Prelude.{◌≡◌, [], false, IsSomeAnd, IsTrue, Some};
ghost use Rattle.trac_rules.specs.Records.{state_before};
ghost use Rattle.trac_text.specs.Ruled.{said_by};
ghost use Rattle.trac_step.specs.Kept.{CanGoBack, HasGoneBack};
ghost use Rattle.trac_step.specs.Room.{HasRoom, IsNoLess};

use crate::engine::Core;
use std::alloc::Allocator;
use trac_gap::TwoEnds;
use trac_journal::{Journal, Keeper};
use trac_text::{Mark, Short};

impl<E: TwoEnds<u8, A>, M: TwoEnds<Mark, A>, A: Allocator + Copy> Core<E, M, A> {
    // Goes back over a step that performed no function, and did not empty the texts.
    pub(crate) fn undo_short(&mut self, short: Short)
        requires { IsSomeAnd (state_before (said_by short) self.old.state) (λ s. HasRoom self.old s) }
        ensures state { state_before (said_by short) self.old.state ≡ Some self.new.state }
        ensures room { IsNoLess self.old self.new }
    {
        self.texts.take_back(short);
    }

    /// Goes back over the newest record of a journal, as `undo` does, and takes it out; returns whether there was
    /// one. The texts of a call are put back from where the journal keeps them. It takes no memory and cannot fail,
    /// lessens no room and forgets no name. The newest record has to lead back to a state for which the machine has
    /// room, as it does after its step.
    // A session has it in its own `step_back`, so a step of a walk back takes one call.
    #[inline(always)]
    pub fn step_back(&mut self, journal: &mut Journal<A>) -> bool
        requires { CanGoBack self.old journal.old.records }
        ensures back { IsTrue result →
            HasGoneBack self.old.state self.new.state journal.old.records journal.new.records }
        ensures none { result ≡ false →
            (journal.old.records ≡ []) × ((journal.new.records ≡ []) × (self.new ≡ self.old)) }
        ensures room { IsNoLess self.old self.new }
    {
        self.go_back(journal)
    }

    // The same, whatever keeps the records.
    #[inline(always)]
    pub(crate) fn go_back<K: Keeper<A>>(&mut self, keeper: &mut K) -> bool
        requires { CanGoBack self.old (K.records keeper.old) }
        ensures back { IsTrue result →
            HasGoneBack self.old.state self.new.state (K.records keeper.old) (K.records keeper.new) }
        ensures none { result ≡ false →
            (K.records keeper.old ≡ []) × ((K.records keeper.new ≡ []) × (self.new ≡ self.old)) }
        ensures room { IsNoLess self.old self.new }
    {
        self.recall_room();
        if let Some(short) = keeper.pop_short() {
            self.undo_short(short);
            return true;
        }
        if let Some(call) = keeper.newest_call() {
            self.begin_again(call.called, &call.arguments);
            let undone = keeper.pop_call();
            self.restore_storage(undone);
            return true;
        }
        if let Some(emptied) = keeper.pop_idle() {
            let frames = emptied.frames;
            self.texts.unload(emptied.base.as_slice(), frames);
            return true;
        }
        false
    }
}
