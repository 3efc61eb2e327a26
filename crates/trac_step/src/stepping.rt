//! One step of the machine: it performs a function, or carries out a rule of scanning and performs none. If no function
//! is begun, the step at a `)` deletes it, and is a step of scanning.
ghost use Rattle.std.specs.Prelude.{◌≡◌, ◌<◌, ◌≤◌, length, IfOk, IfErr, OnErr, OnOk, Ok, Some};
ghost use Rattle.trac_forms.specs.Stored.{KnowsAll};
ghost use Rattle.trac_rules.specs.declared.limit.TheConstants.{JOURNAL_LIMIT};
ghost use Rattle.trac_rules.specs.Outcomes.{MayRefuse};
ghost use Rattle.trac_rules.specs.Proper.{IsProper};
ghost use Rattle.trac_rules.specs.Records.{CallRecord, Called, record_of, rest_before, rest_of, texts_before, texts_in};
ghost use Rattle.trac_rules.specs.State.{storage_of};
ghost use Rattle.trac_rules.specs.Stepping.{step};
ghost use Rattle.trac_rules.specs.Undone.{storage_before};
ghost use Rattle.trac_rules.specs.Weights.{loss, weight};
ghost use Rattle.trac_prims.specs.Tape.{environment_of};
ghost use Rattle.trac_step.specs.Kept.{CanStep, IsKept, IsStepped};
ghost use Rattle.trac_step.specs.Record.{IsTaken, before, recorded_by};
ghost use Rattle.trac_step.specs.Room.{HasRoom, IsNoLess, LacksRoomAhead};

use crate::engine::Core;
use crate::one::One;
use crate::record::Record;
use std::alloc::Allocator;
use trac_gap::TwoEnds;
use trac_journal::{Journal, Keeper};
use trac_prims::{Made, Tape};
use trac_text::{Mark, Refusal, Rule};

impl<E: TwoEnds<u8, A>, M: TwoEnds<Mark, A>, A: Allocator + Copy> Core<E, M, A> {
    /// Takes the next step of T-64's rules over this tape, and answers its record: what the step destroyed. By it
    /// `undo` can go back over the step. Sessions call `step_into`, which packs the record into a journal.
    ///
    /// If the step is refused, the state stays as it was. It is refused with:
    /// - `NeedInput`: its function reads input that is not there yet.
    /// - `Ended`: its function reads input that will never be there, or halts the processor, as `hl` does.
    /// - `TooLong`: the state after the step would pass a limit of `trac_rules::limit`.
    /// - `Memory`: the allocator refuses.
    ///
    /// A step of scanning asks for no memory if the machine has room for the state after it. The step from an empty
    /// active text is the exception: it copies the neutral text into its record, and loads the idle program.
    ///
    /// The machine's room is the memory that it holds for its texts, marks and output. No step, not even a refused one,
    /// lessens it. After an accepted step there is room for the state before it. A name that the store knows stays
    /// known, even if the step deletes its form: so the form can return without memory.
    ///
    /// The tape must have at least `position()` bytes: those that were read, and that `release` has not dropped.
    pub fn step(&mut self, tape: Tape<'_>) -> Result<Record<A>, Refusal>
        requires { self.old.state.position ≤ length tape.bytes.now }
        ensures taken { IfOk result
            (λ r. (step (environment_of self.old.width tape.entry) self.old.state ≡ Ok self.new.state)
            × (before r self.new.state ≡ Some self.old.state)) }
        ensures recorded { IfOk result
            (λ r. record_of (environment_of self.old.width tape.entry) self.old.state ≡ Some (recorded_by r)) }
        ensures weighs { IfOk result (λ r. weight (recorded_by r) ≤ loss self.old.state) }

        // The record of a call gives back three parts of the state, each by itself: texts and begun functions, forms
        // and blocks, all else.
        ensures texts { IfOk result (λ r. (c : CallRecord) → recorded_by r ≡ Called c →
            texts_before c (texts_in self.new.state) ≡ Some (texts_in self.old.state)) }
        ensures storage { IfOk result (λ r. (c : CallRecord) → recorded_by r ≡ Called c →
            storage_before c.arguments c.undone (storage_of self.new.state) ≡ Some (storage_of self.old.state)) }
        ensures rest { IfOk result (λ r. (c : CallRecord) → recorded_by r ≡ Called c →
            rest_before c (rest_of self.new.state) ≡ Some (rest_of self.old.state)) }
        ensures proper { OnOk result (IsProper self.new.state) }
        ensures held { OnOk result (HasRoom self.new self.old.state) }
        ensures refused { IfErr result (λ e. (self.new.state ≡ self.old.state)
            × MayRefuse (step (environment_of self.old.width tape.entry) self.old.state) e) }
        ensures lacking { IfErr result (λ e. e ≡ Refusal.Memory → LacksRoomAhead self.old) }
        ensures room { IsNoLess self.old self.new }
    {
        self.recall_room();
        self.step_alone(tape)
    }

    /// Takes the next step, as `step` does, and adds its record to this journal, so that `step_back` can go back over
    /// it.
    ///
    /// Refused as `step` is, and with `Memory` also if the journal cannot grow. Any refusal leaves the state and the
    /// records as they were: the step takes all memory before it changes these. A step of scanning asks for no memory
    /// if the machine has room for the state after it, and the journal for its record. The step from an empty active
    /// text is the exception here too.
    ///
    /// A step that performs a function makes its value, and what it prints, in the buffers `made`. These serve step
    /// after step, and what they hold before does not matter.
    ///
    /// The journal must have fewer than 1,048,576 records. The tape must have at least `position()` bytes.
    // A session's loop over many steps has this function inlined, with the most frequent rules of scanning: a call for
    // each step is slower. `close` and the other rules stay functions of their own.
    #[inline(always)]
    pub fn step_into(
        &mut self,
        journal: &mut Journal<A>,
        tape: Tape<'_>,
        made: &mut Made<A>,
    ) -> Result<(), Refusal>
        requires position { self.old.state.position ≤ length tape.bytes.now }
        requires not_full { length journal.old.records < JOURNAL_LIMIT }
        ensures taken { OnOk result
            (step (environment_of self.old.width tape.entry) self.old.state ≡ Ok self.new.state) }
        ensures kept { OnOk result (IsKept (environment_of self.old.width tape.entry) self.old.state self.new.state
            journal.old.records journal.new.records) }
        ensures proper { OnOk result (IsProper self.new.state) }
        ensures held { OnOk result (HasRoom self.new self.old.state) }
        ensures recent { KnowsAll self.new.recent self.old.state.forms }
        ensures refused { IfErr result (MayRefuse (step (environment_of self.old.width tape.entry) self.old.state)) }
        ensures unchanged { OnErr result
            ((self.new.state ≡ self.old.state) × (journal.new.records ≡ journal.old.records)) }
        ensures lacking { IfErr result (λ e. e ≡ Refusal.Memory → 1 ≤ journal.old.places → LacksRoomAhead self.old) }
        ensures room { IsNoLess self.old self.new }
    {
        self.recall_room();
        self.next_step(journal, tape, made)
    }

    // The step, whose record is kept by itself.
    fn step_alone(&mut self, tape: Tape<'_>) -> Result<Record<A>, Refusal>
        requires proper { IsProper self.old.state }
        requires position { self.old.state.position ≤ length tape.bytes.now }
        ensures { IsTaken (environment_of self.old.width tape.entry) result self.old self.new }
    {
        let alloc = *self.output.allocator();
        let mut one = One {
            taken: None,
            arguments: None,
            alloc,
        };
        let mut made = Made::new(alloc);
        self.next_step(&mut one, tape, &mut made)?;
        Ok(one.into_record())
    }

    // The step itself. At a `)` in a function, `close` performs it. Else, and also if the active text is empty,
    // `carry_out` carries out a rule of scanning. This can pass one limit alone, that on marks, which `move_fits`
    // judges: each argument of a begun function has a mark.
    #[inline(always)]
    fn next_step<K: Keeper<A>>(
        &mut self,
        keeper: &mut K,
        tape: Tape<'_>,
        made: &mut Made<A>,
    ) -> Result<(), Refusal>
        requires { CanStep (environment_of self.old.width tape) self.old (K.records keeper.old) K.most }
        ensures { IsStepped (environment_of self.old.width tape.entry) result self.old self.new (K.records keeper.old)
            (K.records keeper.new) (K.places keeper.old) }
    {
        let rule = self.texts.rule();
        if let Rule::Perform = rule {
            return self.close(keeper, tape, made);
        }
        if !self.move_fits(rule) {
            return Err(Refusal::TooLong);
        }
        self.carry_out(keeper, rule)
    }

    // Does nothing when it runs. Its three calls tell the prover what holds of every machine: its state is within all
    // limits, and the machine has room for this state, of whose forms it has the names as recent ones.
    pub(crate) fn recall_room(&self)
        ensures proper { IsProper self.now.state }
        ensures room { HasRoom self.now self.now.state }
        ensures recent { KnowsAll self.now.recent self.now.state.forms }
    {
        self.texts.recall_room();
        let _room = self.output.capacity();
        self.store.knows_its_forms();
    }
}
