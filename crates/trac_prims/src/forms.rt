//! Calls that look at the forms or change them.
ghost use Rattle.std.specs.Prelude.{◌≡◌, ◌<◌, ◌≤◌, ◌++◌, length, drop, flat_map, IfOk, IsOkUnless, MatchOption, OnOk};
ghost use Rattle.std.specs.Prelude.{SomeIff};
ghost use Rattle.trac_forms.specs.Layout.{IsSound};
ghost use Rattle.trac_forms.specs.Stored.{storage_in};
ghost use Rattle.trac_rules.specs.Filling.{called};
ghost use Rattle.trac_rules.specs.Form.{Form as Divided};
ghost use Rattle.trac_rules.specs.Handling.{handled};
ghost use Rattle.trac_rules.specs.Limits.{may_be_put};
ghost use Rattle.trac_rules.specs.State.{Storage};
ghost use Rattle.trac_rules.specs.declared.primitive.FormAction.TheVariants.{Define, Delete, ListNames, PrintForm};
ghost use Rattle.trac_rules.specs.declared.primitive.FormAction.TheVariants.{Restore, Segment, Call as CallForm};
ghost use Rattle.trac_rules.specs.declared.primitive.Primitive.TheVariants.{Handle};
ghost use Rattle.trac_change.specs.declared.change.UnnamedChange.TheVariants.{Keep};
ghost use Rattle.trac_change.specs.Changes.{IsChangeOf};
ghost use Rattle.trac_prims.specs.declared.effect.Made as made;
ghost use Rattle.trac_prims.specs.Effects.{IsDone};
ghost use Rattle.trac_text.specs.Framing.{texts_of};
ghost use Rattle.trac_rules.specs.declared.width.Width.{Width};

use crate::effect::{Deed, Made, NOTHING};
use std::alloc::Allocator;
use trac_change::{LaterArguments, UnnamedChange, after};
use trac_forms::{Form, Store, Texts};
use trac_rules::limit::{FORM_COUNT_LIMIT, MARK_LIMIT, NAME_LIMIT, TEXT_LIMIT};
use trac_rules::refusal::Refusal;
use trac_text::Args;

// `ds`: a text becomes a form.
#[inline(never)]
pub(crate) fn define<A: Allocator + Copy>(
    alloc: A,
    args: &Args<'_>,
    store: &Store<A>,
    change: &mut UnnamedChange<A>,
) -> Result<Deed, Refusal>
    ensures outcome { (width : Width) (texts : made.Made A) → IsDone args.now (storage_in store.now)
        (handled Define width args.now (storage_in store.now)) texts texts change.new result }
    ensures change { OnOk result (IsChangeOf (Handle Define) args.now (storage_in store.now) change.new) }
{
    let form = Form::new(alloc, args.get(2))?;
    if !may_put(store, args.get(1)) {
        return Err(Refusal::TooLong);
    }
    *change = UnnamedChange::Put(form);
    Ok(NOTHING)
}

// `dd`: the forms of some names are deleted.
#[inline(never)]
pub(crate) fn delete<A: Allocator + Copy>(
    alloc: A,
    args: &Args<'_>,
    change: &mut UnnamedChange<A>,
) -> Result<Deed, Refusal>
    ensures outcome { (storage : Storage) (width : Width) (texts : made.Made A) →
        IsDone args.now storage (handled Delete width args.now storage) texts texts change.new result }
    ensures change { (storage : Storage) → OnOk result (IsChangeOf (Handle Delete) args.now storage change.new) }
{
    let names = copies(alloc, &after(args, 1))?;
    *change = UnnamedChange::Remove(names);
    Ok(NOTHING)
}

// `ss`: texts are cut out of a form.
#[inline(never)]
pub(crate) fn segment<A: Allocator + Copy>(
    args: &Args<'_>,
    store: &Store<A>,
    change: &mut UnnamedChange<A>,
) -> Result<Deed, Refusal>
    requires keeps { change.old ≡ Keep }
    requires count { length args.now ≤ MARK_LIMIT }
    ensures outcome { (width : Width) (texts : made.Made A) → IsDone args.now (storage_in store.now)
        (handled Segment width args.now (storage_in store.now)) texts texts change.new result }
    ensures change { OnOk result (IsChangeOf (Handle Segment) args.now (storage_in store.now) change.new) }
{
    let name = args.get(1);
    let Some(form) = store.get(name) else {
        return Ok(NOTHING);
    };
    if !may_put(store, name) {
        return Err(Refusal::TooLong);
    }
    let cut = form.cut_for(&after(args, 2))?;
    *change = UnnamedChange::Cut(cut);
    Ok(NOTHING)
}

// `cr`: the pointer of a form goes before its first item.
#[inline(never)]
pub(crate) fn restore<A: Allocator + Copy>(
    args: &Args<'_>,
    store: &Store<A>,
    change: &mut UnnamedChange<A>,
) -> Result<Deed, Refusal>
    requires { change.old ≡ Keep }
    ensures outcome { (width : Width) (texts : made.Made A) → IsDone args.now (storage_in store.now)
        (handled Restore width args.now (storage_in store.now)) texts texts change.new result }
    ensures change { OnOk result (IsChangeOf (Handle Restore) args.now (storage_in store.now) change.new) }
{
    if store.get(args.get(1)).is_none() {
        return Ok(NOTHING);
    }
    *change = UnnamedChange::Point(0);
    Ok(NOTHING)
}

// `cl`: a form from its pointer on, its gaps filled with texts.
pub(crate) fn call<A: Allocator + Copy>(
    args: &Args<'_>,
    store: &Store<A>,
    made: &mut Made<A>,
) -> Result<Deed, Refusal>
    ensures { (width : Width) → IsDone args.now (storage_in store.now)
        (handled CallForm width args.now (storage_in store.now)) made.old made.new Keep result }
{
    let Some(form) = store.get(args.get(1)) else {
        return Ok(NOTHING);
    };
    let Some(room) = room_of(form, args) else {
        return Err(Refusal::TooLong);
    };
    let texts = after(args, 2);
    made.value.reserve(room)?;
    form.call_into(&texts, &mut made.value)?;
    Ok(NOTHING)
}

// `ln`: the names of all forms, each with a text before it.
pub(crate) fn list_names<A: Allocator + Copy>(
    args: &Args<'_>,
    store: &Store<A>,
    made: &mut Made<A>,
) -> Result<Deed, Refusal>
    ensures { (width : Width) → IsDone args.now (storage_in store.now)
        (handled ListNames width args.now (storage_in store.now)) made.old made.new Keep result }
{
    let text = args.get(1);
    let found = store.names()?;
    let names = found.as_slice();
    let Some(len) = list_len(text, names) else {
        return Err(Refusal::TooLong);
    };
    made.value.reserve(len)?;
    for name in names {
        made.value.extend_from_slice(text)?;
        made.value.extend_from_slice(name)?;
    }
    Ok(NOTHING)
}

// `pf`: a form is printed.
pub(crate) fn print_form<A: Allocator + Copy>(
    args: &Args<'_>,
    store: &Store<A>,
    made: &mut Made<A>,
) -> Result<Deed, Refusal>
    ensures { (width : Width) → IsDone args.now (storage_in store.now)
        (handled PrintForm width args.now (storage_in store.now)) made.old made.new Keep result }
{
    let Some(form) = store.get(args.get(1)) else {
        return Ok(NOTHING);
    };
    let Some(len) = form.show_len() else {
        return Err(Refusal::TooLong);
    };
    made.print.reserve(len)?;
    form.show_into(&mut made.print)?;
    Ok(NOTHING)
}

// ---- pieces

// For how many bytes the value of this call is given room before it is made; `None` if it is longer than a text may be.
// Its length is found first only if it may be that long: an item gives one byte, or one of the texts.
fn room_of<A: Allocator + Copy>(form: &Form<A>, args: &Args<'_>) -> Option<usize>
    ensures { MatchOption result (TEXT_LIMIT < length (called (drop 2 args.now) form.now))
        (λ _. length (called (drop 2 args.now) form.now) ≤ TEXT_LIMIT) }
{
    let items = form.len() - form.pointer();
    if items.saturating_mul(args.joined().len() + 1) <= TEXT_LIMIT {
        return Some(items);
    }
    form.call_len(&after(args, 2))
}

// Whether a form may be put under this name: all forms are alike in that.
fn may_put<A: Allocator + Copy>(store: &Store<A>, name: &[u8]) -> bool
    ensures { (form : Divided) → IsSound form → result ≡ may_be_put name.now form store.now.forms }
{
    if name.len() > NAME_LIMIT {
        return false;
    }
    // While there may be one form more, no earlier one of this name is looked for.
    if store.has_fewer_forms(FORM_COUNT_LIMIT) {
        return true;
    }
    if store.get(name).is_none() {
        return false;
    }
    store.has_fewer_forms(FORM_COUNT_LIMIT + 1)
}

// Texts with memory of their own.
fn copies<A: Allocator + Copy>(
    alloc: A,
    texts: &LaterArguments<'_>,
) -> Result<Vec<Vec<u8, A>, A>, Refusal>
    ensures made { IfOk result (λ copies. texts_of copies.items ≡ texts.now) }
    ensures err { IsOkUnless result Refusal.Memory }
{
    let mut copies = Vec::new(alloc);
    for i in 0..texts.count() {
        copies.push(Vec::from_slice(alloc, texts.get(i))?)?;
    }
    Ok(copies)
}

// How many bytes the names take, each with a text before it, if that is no more than a text may have.
fn list_len(text: &[u8], names: &[&[u8]]) -> Option<usize>
    ensures { SomeIff result (length (flat_map (λ name. text.now ++ name.now) names.now) ≤ TEXT_LIMIT)
        (length (flat_map (λ name. text.now ++ name.now) names.now)) }
{
    let mut total = 0;
    for name in names {
        let len = text.len() + name.len();
        if len > TEXT_LIMIT - total {
            return None;
        }
        total += len;
    }
    Some(total)
}
