//! The record of one step, kept by itself.
ghost use Rattle.std.specs.Prelude.{◌≡◌, ◌<◌, [], ◌∷◌, length, IsSomeAnd};
ghost use Rattle.trac_text.specs.Pieces.{all_texts};
ghost use Rattle.trac_step.specs.Record.{kept_in, recorded_by};

use crate::record::Record;
use std::alloc::Allocator;
use std::mem;
use trac_journal::{Called, Emptied, Keeper, LentCall, Undone};
use trac_text::{Args, Functions, Pieces, Refusal, Short};

// Keeps the record of one step. Only one of a call or of an idle step takes memory.
#[derive(Drop)]
pub(crate) struct One<A: Allocator + Copy> {
    pub(crate) taken: Option<Record<A>>,
    // the arguments of the call that is performed, if there is one
    pub(crate) arguments: Option<Pieces<A>>,
    pub(crate) alloc: A,
}

impl<A: Allocator + Copy> One<A> {
    // The record, which has to be there.
    pub(crate) fn into_record(self) -> Record<A>
        requires { 0 < length (kept_in self.taken) }
        ensures { kept_in self.taken ≡ recorded_by result ∷ [] }
    {
        let One { taken, .. } = self;
        let Some(taken) = taken else { unreachable!() };
        taken
    }

    // Keeps this record, where none is yet.
    fn put(&mut self, taken: Record<A>)
        requires { length (kept_in self.old.taken) < 1 }
        ensures { kept_in self.new.taken ≡ recorded_by taken ∷ kept_in self.old.taken }
    {
        self.taken = Some(taken);
    }
}

impl<A: Allocator + Copy> Keeper<A> for One<A> {
    ghost records = { λ o. kept_in o.taken };

    ghost most = { 1 };

    // none needs memory
    ghost places = { λ o. 1 };

    ghost has_room = { λ o texts. IsSomeAnd o.arguments (λ a. all_texts a ≡ texts) };

    ghost has_idle_room = { λ o. Unit {0} };

    fn reserve_short(&mut self) -> Result<(), Refusal> {
        Ok(())
    }

    fn reserve_call(&mut self, arguments: &Args<'_>) -> Result<(), Refusal> {
        self.arguments = Some(Pieces::of(self.alloc, arguments)?);
        Ok(())
    }

    fn reserve_idle(&mut self) -> Result<(), Refusal> {
        Ok(())
    }

    fn push_moved_byte(&mut self) {
        self.put(Record::Moved);
    }

    fn push_short(&mut self, newest: Short) {
        self.put(Record::of_short(newest));
    }

    fn push_call(&mut self, called: Called, _arguments: &Args<'_>, undone: &mut Undone<A>) {
        let Some(arguments) = self.arguments.take() else {
            unreachable!()
        };
        let undone = mem::replace(undone, Undone::Nothing);
        self.put(Record::of_call(called, arguments, undone));
    }

    fn push_idle(&mut self, base: &mut Vec<u8, A>, frames: &mut Functions<A>) {
        self.put(Record::Idle {
            base: mem::replace(base, Vec::new(self.alloc)),
            frames: mem::replace(frames, Vec::new(self.alloc)),
        });
    }

    fn pop_short(&mut self) -> Option<Short> {
        let Some(taken) = &self.taken else {
            return None;
        };
        let short = taken.short()?;
        self.taken = None;
        Some(short)
    }

    fn newest_call(&self) -> Option<LentCall<'_>> {
        let Some(taken) = &self.taken else {
            return None;
        };
        taken.call()
    }

    fn pop_call(&mut self) -> Undone<A> {
        let Some(
            Record::Call {
                arguments: _arguments,
                change: undone,
                ..
            },
        ) = self.taken.take()
        else {
            unreachable!()
        };
        undone
    }

    fn pop_idle(&mut self) -> Option<Emptied<A>> {
        match self.taken.take() {
            Some(Record::Idle { base, frames }) => Some(Emptied { base, frames }),
            other => {
                self.taken = other;
                None
            }
        }
    }
}
