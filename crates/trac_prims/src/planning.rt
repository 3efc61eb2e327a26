//! Planning a call.
ghost use Rattle.std.specs.Prelude.{◌≡◌, ◌+◌, ◌≤◌, length, IfOk, OnOk};
ghost use Rattle.trac_forms.specs.Stored.{storage_in};
ghost use Rattle.trac_rules.specs.Blocks.{block_handled};
ghost use Rattle.trac_rules.specs.Handling.{handled};
ghost use Rattle.trac_rules.specs.Outcomes.{MayAnswer, limited, seen_as};
ghost use Rattle.trac_rules.specs.Effect.{argument};
ghost use Rattle.trac_rules.specs.Performing.{effect_of, performed, primitive_of};
ghost use Rattle.trac_rules.specs.Scanning.{Call};
ghost use Rattle.trac_rules.specs.State.{State, storage_of};
ghost use Rattle.trac_rules.specs.declared.primitive.Primitive.TheVariants as primitive;
ghost use Rattle.trac_change.specs.declared.change.UnnamedChange.TheVariants.{Keep};
ghost use Rattle.trac_change.specs.Changes.{IsChangeOf};
ghost use Rattle.trac_change.specs.Naming.{IsNamed, unnamed};
ghost use Rattle.trac_rules.specs.declared.width.Width.{Width};
ghost use Rattle.trac_prims.specs.declared.effect.Made as made;
ghost use Rattle.trac_prims.specs.Effects.{IsDone, done_on, planned_from, planned_on};
ghost use Rattle.trac_prims.specs.Plans.{HasPlace, IsGiven, IsNow, fits_after};
ghost use Rattle.trac_prims.specs.Tape.{environment_of};

use crate::blocks::{erase_block, fetch_block, store_block};
use crate::computing::compute;
use crate::effect::{Deed, Effect, Made, NOTHING, Now};
use crate::forms::{call, define, delete, list_names, print_form, restore, segment};
use crate::io::{read_byte, read_string};
use crate::name::primitive_named;
use crate::reading::read;
use crate::tape::Tape;
use crate::tracing::line_into;
use std::alloc::Allocator;
use trac_change::UnnamedChange;
use trac_forms::Store;
use trac_rules::kind::Kind;
use trac_rules::limit::{MARK_LIMIT, OUTPUT_LIMIT, TEXT_LIMIT};
use trac_rules::primitive::{BlockAction, FormAction, Primitive};
use trac_rules::refusal::Refusal;
use trac_rules::width::Width;
use trac_text::Args;

/// What the call of these arguments by a function of this kind will do: everything, its pieces already made. The first
/// argument is the name. The primitives are those of T-64, with this project's profile.
///
/// Refused with `NeedInput` or `Ended` if it reads input that is not there. Refused with `TooLong` if the state after
/// the call would pass a limit, its forms included. Refused with `Memory` if the allocator refuses. The value of a
/// form, a printed form and a list of names are not built if they are longer than any state may hold. The tape has to
/// hold at least as many bytes as are read. There may be at most 1,048,576 arguments, and text and output have to be
/// within their limits.
pub fn plan<A: Allocator + Copy>(
    alloc: A,
    args: &Args<'_>,
    kind: Kind,
    store: &Store<A>,
    tape: Tape<'_>,
    now: Now,
) -> Result<Effect<A>, Refusal>
    requires position { now.position ≤ length tape.bytes.now }
    requires count { length args.now ≤ MARK_LIMIT }
    requires text { now.text ≤ TEXT_LIMIT }
    requires output { now.output ≤ OUTPUT_LIMIT }
    ensures outcome { (call : Call) → IsGiven call kind args.now store.now now →
        MayAnswer (planned_on args.now (storage_of call.state)) (seen_as (planned_from now)
        (limited (fits_after call) (performed (environment_of now.width tape.entry) call))) result }
    ensures within { IfOk result (λ e. e.position ≤ length tape.entry.bytes.now) }
    ensures place { IfOk result (λ e. HasPlace now e.value.items e.print.items) }
    ensures change { IfOk result
        (λ e. IsChangeOf (primitive_of (argument 0 args.now)) args.now (storage_in store.now) (unnamed e.change)) }
    ensures named { IfOk result (λ e. IsNamed (argument 1 args.now) e.change) }
{
    let mut made = Made::new(alloc);
    let mut change = UnnamedChange::Keep;
    let deed = plan_into(alloc, args, kind, store, tape, now, &mut made, &mut change)?;
    let change = change.with_name(alloc, args.get(1))?;
    Ok(Effect {
        value: made.value,
        forced: deed.forced,
        print: made.print,
        position: now.position + deed.read,
        meta: deed.meta.unwrap_or(now.meta),
        trace: deed.trace.unwrap_or(now.trace),
        change,
    })
}

/// What `plan` says, its value and what it prints being made in buffers. What the buffers held before is gone, and they
/// take more memory only if they have too little. The change of forms and blocks is put in place of one that keeps all,
/// and holds no copy of the name that the call gives. After a refusal the buffers hold any texts, and the change may be
/// any; nothing else has changed.
pub fn plan_into<A: Allocator + Copy>(
    alloc: A,
    args: &Args<'_>,
    kind: Kind,
    store: &Store<A>,
    tape: Tape<'_>,
    now: Now,
    made: &mut Made<A>,
    change: &mut UnnamedChange<A>,
) -> Result<Deed, Refusal>
    requires keeps { change.old ≡ Keep }
    requires position { now.position ≤ length tape.bytes.now }
    requires count { length args.now ≤ MARK_LIMIT }
    requires text { now.text ≤ TEXT_LIMIT }
    requires output { now.output ≤ OUTPUT_LIMIT }
    ensures outcome { (call : Call) → IsGiven call kind args.now store.now now →
        MayAnswer (done_on args.now (storage_of call.state) made.new change.new)
        (limited (fits_after call) (performed (environment_of now.width tape.entry) call)) result }
    ensures within { IfOk result (λ d. now.position + d.read ≤ length tape.entry.bytes.now) }
    ensures place { IfOk result (λ d. HasPlace now made.new.value.items made.new.print.items) }
    ensures change { OnOk result
        (IsChangeOf (primitive_of (argument 0 args.now)) args.now (storage_in store.now) change.new) }
{
    made.value.clear();
    made.print.clear();
    let line = line_into(now.trace, kind, args, &mut made.print);
    let deed = perform(
        alloc,
        primitive_named(args.get(0)),
        args,
        store,
        tape,
        now,
        made,
        change,
    )?;
    // A call that is refused anyway needs no line: so its own refusal comes first.
    line?;
    if made.value.len() > TEXT_LIMIT - now.text || made.print.len() > OUTPUT_LIMIT - now.output {
        return Err(Refusal::TooLong);
    }
    Ok(deed)
}

// What a primitive does. What it makes is added to the ends of the texts that were made before.
fn perform<A: Allocator + Copy>(
    alloc: A,
    primitive: Primitive,
    args: &Args<'_>,
    store: &Store<A>,
    tape: Tape<'_>,
    now: Now,
    made: &mut Made<A>,
    change: &mut UnnamedChange<A>,
) -> Result<Deed, Refusal>
    requires keeps { change.old ≡ Keep }
    requires position { now.position ≤ length tape.bytes.now }
    requires count { length args.now ≤ MARK_LIMIT }
    ensures outcome { (s : State) → IsNow s store.now now → IsDone args.now (storage_of s)
        (effect_of primitive (environment_of now.width tape.entry) args.now s) made.old made.new change.new result }
    ensures within { IfOk result (λ d. now.position + d.read ≤ length tape.entry.bytes.now) }
    ensures change { OnOk result (IsChangeOf primitive args.now (storage_in store.now) change.new) }
{
    match primitive {
        Primitive::PrintString => {
            made.print.extend_from_slice(args.get(1))?;
            Ok(NOTHING)
        }
        Primitive::ReadString => read_string(tape, now.position, now.meta, made),
        Primitive::ReadByte => read_byte(tape, now.position, made),
        Primitive::Halt => Err(Refusal::Ended),
        Primitive::SetMeta => Ok(Deed {
            meta: args.get(1).first().copied(),
            ..NOTHING
        }),
        Primitive::SetTrace(trace) => Ok(Deed {
            trace: Some(trace),
            ..NOTHING
        }),
        Primitive::Compute(computation) => compute(alloc, computation, args, now.width, made),
        Primitive::Handle(action) => handle(alloc, action, args, store, now.width, made, change),
        Primitive::HandleBlock(action) => plan_block_change(alloc, action, args, store, change),
        Primitive::Unknown => Ok(NOTHING),
    }
}

// What a primitive does with forms. A function clears room, where it begins, for all changes that it may plan. So this,
// what plans a change of forms, and the next one are compiled apart, and a call that plans none does not pay.
#[inline(never)]
fn handle<A: Allocator + Copy>(
    alloc: A,
    action: FormAction,
    args: &Args<'_>,
    store: &Store<A>,
    width: Width,
    made: &mut Made<A>,
    change: &mut UnnamedChange<A>,
) -> Result<Deed, Refusal>
    requires keeps { change.old ≡ Keep }
    requires count { length args.now ≤ MARK_LIMIT }
    ensures outcome { IsDone args.now (storage_in store.now) (handled action width args.now (storage_in store.now))
        made.old made.new change.new result }
    ensures change { OnOk result (IsChangeOf (primitive.Handle action) args.now (storage_in store.now) change.new) }
{
    match action {
        FormAction::Call => call(args, store, made),
        FormAction::Read(reading) => read(reading, args, store, width, made, change),
        FormAction::ListNames => list_names(args, store, made),
        FormAction::PrintForm => print_form(args, store, made),
        FormAction::Define => define(alloc, args, store, change),
        FormAction::Delete => delete(alloc, args, change),
        FormAction::DeleteAll => {
            *change = UnnamedChange::Clear;
            Ok(NOTHING)
        }
        FormAction::Segment => segment(args, store, change),
        FormAction::Restore => restore(args, store, change),
    }
}

// The change of a primitive that handles blocks.
#[inline(never)]
fn plan_block_change<A: Allocator + Copy>(
    alloc: A,
    action: BlockAction,
    args: &Args<'_>,
    store: &Store<A>,
    change: &mut UnnamedChange<A>,
) -> Result<Deed, Refusal>
    requires { change.old ≡ Keep }
    ensures outcome { (texts : made.Made A) → IsDone args.now (storage_in store.now)
        (block_handled action args.now (storage_in store.now)) texts texts change.new result }
    ensures change { OnOk result
        (IsChangeOf (primitive.HandleBlock action) args.now (storage_in store.now) change.new) }
{
    match action {
        BlockAction::StoreBlock => store_block(alloc, args, store, change),
        BlockAction::FetchBlock => fetch_block(alloc, args, store, change),
        BlockAction::EraseBlock => erase_block(alloc, args, store, change),
    }
}
