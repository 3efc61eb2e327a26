//! The steps that perform a function.
ghost use Rattle.std.specs.Prelude.{◌≡◌, ◌<◌, ◌≤◌, ◌+◌, ◌++◌, length, option_map, IfErr};
ghost use Rattle.std.specs.Prelude.{IfOk, IsOkUnless, OnErr, OnOk};
ghost use Rattle.trac_rules.specs.Outcomes.{MayRefuse};
ghost use Rattle.trac_rules.specs.Records.{is_scanned};
ghost use Rattle.trac_rules.specs.Scanning.{front_of, scan};
ghost use Rattle.trac_rules.specs.Stepping.{step};
ghost use Rattle.trac_rules.specs.Proper.{IsProper};
ghost use Rattle.trac_change.specs.declared.change.UnnamedChange.TheVariants.{Keep};
ghost use Rattle.trac_prims.specs.Tape.{environment_of};
ghost use Rattle.trac_step.specs.Calling.{HasRoomFor, arguments_in, called_with, state_after, state_ended, with_change};
ghost use Rattle.trac_step.specs.Kept.{CanStep, FitsJournal, IsKeptAs, IsStepped};
ghost use Rattle.trac_step.specs.Ready.{CanChange, CanEnd, IsPlanned, IsReady, recorded_after, undone_after};
ghost use Rattle.trac_step.specs.Room.{IsNoLess};

use crate::engine::Core;
use std::alloc::Allocator;
use trac_gap::{SlidingBuf, TwoEnds};
use trac_journal::{Called, Keeper, Undone};
use trac_prims::{Deed, Made, Now, Tape, UnnamedChange, plan_into};
use trac_rules::scan::Front;
use trac_storage::change_forms;
use trac_text::{Beginning, Kind, Mark, Refusal};

// What the record of a call says beside its arguments, and what was destroyed of forms and blocks, if these are meta
// character and trace before it.
fn called_by<A: Allocator + Copy>(
    kind: Kind,
    meta: u8,
    trace: bool,
    deed: Deed,
    made: &Made<A>,
) -> Called
    ensures kind { result.kind ≡ kind }
    ensures value { result.value ≡ length made.now.value.items }
    ensures scanned { result.scanned ≡ is_scanned kind deed.forced }
    ensures printed { result.printed ≡ length made.now.print.items }
    ensures read { result.read ≡ deed.read }
    ensures meta { result.meta ≡ option_map (λ _. meta) deed.meta }
    ensures trace { result.trace ≡ trace }
{
    Called {
        kind,
        value: made.value.len(),
        scanned: deed.forced | (kind == Kind::Active),
        printed: made.print.len(),
        read: deed.read,
        meta: deed.meta.and(Some(meta)),
        trace,
    }
}

// Puts what a call prints at the end of the output, which has to have room for it. Most calls print nothing.
fn put_printed<A: Allocator>(output: &mut SlidingBuf<u8, A>, printed: &[u8])
    requires { length output.old.items + length printed.now ≤ output.old.capacity }
    ensures items { output.new.items ≡ output.old.items ++ printed.now }
    ensures grows { output.old.capacity ≤ output.new.capacity }
{
    if !printed.is_empty() {
        output.put(printed);
    }
}

impl<E: TwoEnds<u8, A>, M: TwoEnds<Mark, A>, A: Allocator + Copy> Core<E, M, A> {
    // Plans the call of the innermost function: its texts are made, and what becomes of forms and blocks is put in
    // place of a change that keeps them. Returns where the function begins and what else is done. Or why it is refused.
    fn planned(
        &self,
        tape: Tape<'_>,
        made: &mut Made<A>,
        change: &mut UnnamedChange<A>,
    ) -> Result<(Beginning, Deed), Refusal>
        requires keeps { change.old ≡ Keep }
        requires proper { IsProper self.now.state }
        requires front { front_of self.now.state.active ≡ Front.Closing }
        requires inside { 0 < length self.now.state.frames }
        requires within { self.now.state.position ≤ length tape.bytes.now }
        ensures planned { IfOk result (λ plan.
            IsPlanned (environment_of self.now.width tape.entry) self.now.state made.new plan.0 plan.1 change.new) }
        ensures refused { IfErr result (MayRefuse (step (environment_of self.now.width tape.entry) self.now.state)) }
    {
        let Some(function) = self.texts.neutral().innermost() else {
            unreachable!()
        };
        let now = Now {
            meta: self.meta,
            trace: self.trace,
            position: self.position,
            output: self.output.len(),
            text: self.texts.active().len() - 1 + function.place,
            width: self.width,
        };
        let deed = plan_into(
            *self.output.allocator(),
            &function.arguments,
            function.kind,
            &self.store,
            tape,
            now,
            made,
            change,
        )?;
        let beginning = Beginning {
            number: function.number,
            place: function.place,
            kind: function.kind,
        };
        Ok((beginning, deed))
    }

    // Makes room for the texts that the call adds, so that ending it needs no memory. The state stays.
    fn make_room(&mut self, made: &Made<A>) -> Result<(), Refusal>
        ensures ok { OnOk result (HasRoomFor made.now self.new) }
        ensures state { self.new.state ≡ self.old.state }
        ensures room { IsNoLess self.old self.new }
        ensures err { IsOkUnless result Refusal.Memory }
    {
        self.texts.reserve(made.value.len())?;
        self.output.reserve(made.print.len())?;
        Ok(())
    }

    // Changes forms and blocks as the call planned it, and keeps its record, while its arguments still stand in the
    // neutral text: they are cut once for all this. It is refused memory alone, and then the state and the records
    // stay. Most calls change nothing of forms and blocks, and for these the compiler makes a way of its own.
    fn change_into<K: Keeper<A>>(
        &mut self,
        keeper: &mut K,
        beginning: Beginning,
        called: Called,
        change: &mut UnnamedChange<A>,
    ) -> Result<(), Refusal>
        requires proper { IsProper self.old.state }
        requires can { CanChange self.old.state beginning change.old }
        requires not_full { length (K.records keeper.old) < K.most }
        requires fits { FitsJournal called (arguments_in (scan self.old.state))
            (undone_after change.old self.old.state) }
        ensures { IsKeptAs (recorded_after called change.old self.old.state)
            (with_change (scan self.old.state) change.old self.old.state) result self.old self.new
            (K.records keeper.old) (K.records keeper.new) }
    {
        let arguments = self.texts.arguments_at(beginning);
        keeper.reserve_call(&arguments)?;
        if let UnnamedChange::Keep = change {
            keeper.push_call(called, &arguments, &mut Undone::Nothing);
            return Ok(());
        }
        let alloc = *self.output.allocator();
        let mut undone = change_forms(&mut self.store, alloc, &arguments, change)?;
        keeper.push_call(called, &arguments, &mut undone);
        Ok(())
    }

    // Ends the call whose change of forms and blocks is made: its function is gone, what it prints is printed, and its
    // value is where it goes. It takes no memory.
    fn end_call(&mut self, beginning: Beginning, deed: Deed, made: &Made<A>)
        requires { CanEnd self.old made.now beginning deed }
        ensures state { self.new.state ≡ state_ended deed made.now (scan self.old.state) }
        ensures room { IsNoLess self.old self.new }
    {
        self.texts.end_function(beginning);
        self.texts
            .put_value(beginning.kind, deed.forced, made.value.as_slice());
        put_printed(&mut self.output, made.print.as_slice());
        let meta = deed.meta.unwrap_or(self.meta);
        let trace = deed.trace.unwrap_or(self.trace);
        self.meta = meta;
        self.trace = trace;
        self.position += deed.read;
    }

    // A `)` in a function, which is performed: it is judged, then its memory is taken, then forms and blocks change and
    // its record is kept, and then it is ended. The texts of the call are made in these buffers. The loop of a walk
    // calls this, and has the most frequent rules of scanning in itself.
    #[inline(never)]
    pub(crate) fn close<K: Keeper<A>>(
        &mut self,
        keeper: &mut K,
        tape: Tape<'_>,
        made: &mut Made<A>,
    ) -> Result<(), Refusal>
        requires front { front_of self.old.state.active ≡ Front.Closing }
        requires inside { 0 < length self.old.state.frames }
        requires can { CanStep (environment_of self.old.width tape) self.old (K.records keeper.old) K.most }
        ensures { IsStepped (environment_of self.old.width tape.entry) result self.old self.new (K.records keeper.old)
            (K.records keeper.new) (K.places keeper.old) }
    {
        let mut change = UnnamedChange::Keep;
        let (beginning, deed) = self.planned(tape, made, &mut change)?;
        self.perform(keeper, beginning, deed, made, &mut change)
    }

    // Performs the call that is planned, and keeps its record. It is refused memory alone, and then
    // the state and the records stay.
    fn perform<K: Keeper<A>>(
        &mut self,
        keeper: &mut K,
        beginning: Beginning,
        deed: Deed,
        made: &Made<A>,
        change: &mut UnnamedChange<A>,
    ) -> Result<(), Refusal>
        requires proper { IsProper self.old.state }
        requires ready { IsReady self.old.state made.now beginning deed change.old }
        requires not_full { length (K.records keeper.old) < K.most }
        requires fits { FitsJournal (called_with self.old.state beginning.kind deed made.now)
            (arguments_in (scan self.old.state)) (undone_after change.old self.old.state) }
        ensures { IsKeptAs (recorded_after (called_with self.old.state beginning.kind deed made.now) change.old
            self.old.state) (state_after deed made.now change.old (scan self.old.state)) result self.old self.new
            (K.records keeper.old) (K.records keeper.new) }
    {
        let called = called_by(beginning.kind, self.meta, self.trace, deed, made);
        self.make_room(made)?;
        self.change_into(keeper, beginning, called, change)?;
        self.end_call(beginning, deed, made);
        Ok(())
    }
}
