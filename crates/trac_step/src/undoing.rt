//! The way back over each kind of step, on the machine's own parts.
ghost use Rattle.std.specs.Prelude.{◌≡◌, IsSome, Some};
ghost use Rattle.trac_rules.specs.Records as rules;
ghost use Rattle.trac_rules.specs.Records.{moved_back, restored};
ghost use Rattle.trac_rules.specs.Undone.{Nothing};
ghost use Rattle.trac_text.specs.Pieces.{all_texts};
ghost use Rattle.trac_journal.specs.Told.{record_with};
ghost use Rattle.trac_change.specs.Undone.{undone_in};
ghost use Rattle.trac_step.specs.Undoing.{CanRestore, CanShow, IsBegunAgain, IsRestored};

use crate::engine::Core;
use std::alloc::Allocator;
use trac_gap::TwoEnds;
use trac_journal::{Called, Undone};
use trac_storage::put_storage;
use trac_text::{Mark, PiecesRef};

impl<E: TwoEnds<u8, A>, M: TwoEnds<Mark, A>, A: Allocator + Copy> Core<E, M, A> {
    /// Moves the last n bytes of the current text back before the active text, as going back over as many records
    /// `Moved` does. The current text has to hold so many. It takes no memory.
    pub fn move_back(&mut self, n: usize)
        requires { IsSome (moved_back n self.old.state) }
        ensures state { moved_back n self.old.state ≡ Some self.new.state }
        ensures others { self.new ≡ record self.old { state = self.new.state } }
    {
        self.texts.move_back(n);
    }

    // The function of a call is begun again, its value and what it printed are gone, and its `)` is back before the
    // active text: all but forms and blocks is as it was.
    pub(crate) fn begin_again(&mut self, called: Called, arguments: &PiecesRef<'_>)
        requires { CanShow self.old
            (restored (rules.Called (record_with called (all_texts arguments.now) Nothing)) self.old.state) }
        ensures { IsBegunAgain called (all_texts arguments.now) self.old self.new }
    {
        self.texts
            .begin_again(called.kind, arguments, called.scanned, called.value);
        let meta = called.meta.unwrap_or(self.meta);
        self.output.truncate(self.output.len() - called.printed);
        self.position -= called.read;
        self.meta = meta;
        self.trace = called.trace;
    }

    // Forms and blocks are as they were before the call at which the machine stands again.
    pub(crate) fn restore_storage(&mut self, undone: Undone<A>)
        requires { CanRestore (undone_in undone) self.old }
        ensures { IsRestored (undone_in undone) self.old self.new }
    {
        let Some(function) = self.texts.neutral().innermost() else {
            unreachable!()
        };
        put_storage(&mut self.store, &function.arguments, undone);
    }
}
